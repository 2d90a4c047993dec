//! Paintings and hulls computed by hand.

ghost use Rattle.std.specs.Prelude.{◌≡◌, IfOk};

use super::helpers::hold;
use om_chirotope::Chirotope;
use om_paint::{Colour, HullError, Painted, acyclic, hull, paint};
use om_samples::{SampleError, chirotope_of, vector_of};
use om_signs::List;
use std::alloc::Global;

/// Whether there is a chirotope with four elements, and this cocircuit fits red, black, black and white, for 1.
fn is_painted(chi: Result<Chirotope, SampleError>, cocircuit: &str) -> bool
    requires { IfOk chi (λ c. c.elements ≡ 4) }
{
    let colours = [Colour::Red, Colour::Black, Colour::Black, Colour::White];
    match chi {
        Ok(chi) => paint(&chi, &colours, 1) == Painted::Cocircuit(vector_of(4, cocircuit)),
        Err(_) => false,
    }
}

/// Whether there is a chirotope, and it is acyclic or not.
fn is_acyclic(chi: Result<Chirotope, SampleError>, expected: bool) -> bool {
    match chi {
        Ok(chi) => acyclic(&chi) == expected,
        Err(_) => false,
    }
}

/// Whether a hull of two elements was found, and these cocircuits show that all are extreme.
fn are_extreme(found: Result<List<Painted>, HullError>, first: &str, second: &str) -> bool {
    let expected = [
        Painted::Cocircuit(vector_of(2, first)),
        Painted::Cocircuit(vector_of(2, second)),
    ];
    match found {
        Ok(items) => items.as_slice() == expected.as_slice(),
        Err(_) => false,
    }
}

/// Whether there is a chirotope, and these cocircuits show that both of its elements are extreme.
fn has_hull(alloc: Global, chi: Result<Chirotope, SampleError>, first: &str, second: &str) -> bool {
    match chi {
        Ok(chi) => are_extreme(hull(alloc, &chi), first, second),
        Err(_) => false,
    }
}

#[test]
fn paintings_and_hulls(rt: HostRuntime) {
    let alloc = rt.alloc();
    hold(
        &rt,
        &[
            // a cocircuit that fits is zero on black, that is at 2 and 3
            (
                "a painting",
                is_painted(chirotope_of(&rt, alloc, 3, 4, "++++"), "+00+"),
            ),
            (
                "acyclic",
                is_acyclic(chirotope_of(&rt, alloc, 2, 2, "+"), true),
            ),
            // the circuit is all plus
            (
                "cyclic",
                is_acyclic(chirotope_of(&rt, alloc, 3, 4, "+-+-"), false),
            ),
            // each of two elements that form a basis has a cocircuit that is minus at it and zero at the other one
            (
                "a hull",
                has_hull(alloc, chirotope_of(&rt, alloc, 2, 2, "+"), "-0", "0-"),
            ),
        ],
    );
}
