//! Lexicographic extensions computed by hand.

ghost use Rattle.std.specs.Prelude.{◌≡◌, IfOk};

use super::helpers::is_chirotope;
use om_chirotope::Chirotope;
use om_lexext::{Signed, lexical};
use om_samples::{SampleError, chirotope_of};
use om_signs::Sign;
use std::alloc::Global;

/// The element 4 with its own sign.
const PLUS_FOUR: Signed = Signed {
    element: 4,
    sign: Sign::Plus,
};

/// The element 3 negated.
const MINUS_THREE: Signed = Signed {
    element: 3,
    sign: Sign::Minus,
};

/// Whether the extension of a chirotope by [4, -3] has rank 3, five elements and the signs of a text.
fn is_extended(alloc: Global, found: Result<Chirotope, SampleError>, text: &str) -> bool
    requires { IfOk found (λ c. c.elements ≡ 4) }
{
    match found {
        Ok(chi) => is_chirotope(lexical(alloc, &chi, &[PLUS_FOUR, MINUS_THREE]), 3, 5, text),
        Err(_) => false,
    }
}

// With 1 2, 1 3 and 2 3 the new element has the signs of 4, which are plus. With 1 4 and 2 4 it has the opposites
// of those of 3, which are minus. With 3 4 it has zero.
#[test]
fn five_in_the_plane(rt: HostRuntime) {
    let chi = chirotope_of(&rt, rt.alloc(), 3, 4, "++++");
    assert!(rt; is_extended(rt.alloc(), chi, "+++++++++0"));
}
