//! Wiring diagrams computed by hand.

ghost use Rattle.std.specs.Prelude.{◌≡◌, IfOk};

use super::helpers::{hold, is_chirotope};
use om_chirotope::Chirotope;
use om_samples::{SampleError, chirotope_of, vector_of};
use om_signs::{Block, List, Sign};
use om_subsets::Subset;
use om_wiring::{BadWiring, Values, Wiring, WiringRefused, check, chirotope, sweep};
use std::alloc::Global;
use std::process::Abort;

/// Whether a wiring diagram with these blocks was accepted; or whether these were refused for a reason, and handed
/// back.
fn is_checked(
    found: Result<Wiring, BadWiring>,
    refused: Option<WiringRefused>,
    blocks: &[Block],
) -> bool {
    match found {
        Ok(w) => refused.is_none() & (w.blocks() == blocks),
        Err(bad) => (refused == Some(bad.why)) & (bad.blocks.as_slice() == blocks),
    }
}

/// Whether there is a chirotope, and the values of the one with the signs `+-++` are right. Of the triples with 1
/// and 2, that with 3 is plus and that with 4 is minus.
fn has_rows(chi: Result<Chirotope, SampleError>) -> bool
    requires rank { IfOk chi (λ c. c.rank ≡ 3) }
    requires elements { IfOk chi (λ c. c.elements ≡ 4) }
{
    match chi {
        Ok(chi) => {
            let values = Values::of(&chi);
            let signs = [values.value(3, 1, 2), values.at(Subset::unrank(1, 3, 4))];
            ([values.rank(), values.elements()] == [3, 4])
                & (values.row(2, 1) == vector_of(4, "00-+"))
                & (signs == [Sign::Plus, Sign::Minus])
        }
        Err(_) => false,
    }
}

/// The least wiring diagram of a chirotope, if there is one.
pub fn sweep_of(alloc: Global, chi: Result<Chirotope, SampleError>) -> Option<Wiring> {
    match chi {
        Ok(chi) => sweep(alloc, &chi).ok(),
        Err(_) => None,
    }
}

/// Asserts that there is a wiring diagram of four wires, that its chirotope has the signs of a text, and that its
/// blocks are these and are accepted.
fn is_of_four<R: Abort>(
    rt: &R,
    alloc: Global,
    found: Option<Wiring>,
    text: &str,
    blocks: &[Block],
) {
    let w = found.expect(rt, "a wiring diagram");
    hold(
        rt,
        &[
            ("wires", w.elements() == 4),
            ("chirotope", is_chirotope(chirotope(alloc, &w), 3, 4, text)),
            (
                "blocks",
                is_checked(check(4, w.into_blocks()), None, blocks),
            ),
        ],
    );
}

/// The wires 1, 2 and 3 cross at once, before each of them crosses 4.
const CROSSED_AT_ONCE: [Block; 4] = [
    Block { first: 1, last: 3 },
    Block { first: 3, last: 4 },
    Block { first: 2, last: 3 },
    Block { first: 1, last: 2 },
];

#[test]
fn four_wires(rt: HostRuntime) {
    let alloc = rt.alloc();
    let swept = sweep_of(alloc, chirotope_of(&rt, alloc, 3, 4, "0+++"));
    is_of_four(&rt, alloc, swept, "0+++", &CROSSED_AT_ONCE);
    // the last order of no blocks isn't the reverse of the first
    let none = check(4, List::new(alloc));
    assert!(rt; is_checked(none, Some(WiringRefused::NotReversed), &[]));
    assert!(rt; has_rows(chirotope_of(&rt, alloc, 3, 4, "+-++")));
}
