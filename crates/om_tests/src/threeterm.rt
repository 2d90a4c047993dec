//! Maps that pass the three-term test, and maps that fail it.

ghost use Rattle.std.specs.Prelude.{◌≤◌};

use super::helpers::hold;
use om_chirotope::Chirotope;
use om_samples::map_of;
use om_signs::MAX_ELEMENTS;
use om_subsets::Subset;
use om_threeterm::{BadThree, ThreeRefused, check};
use std::alloc::Global;
use std::thread::Threads;

/// Whether a map passed the test, or was refused for a reason.
fn is_answer(found: Result<Chirotope, BadThree>, refused: Option<ThreeRefused>) -> bool {
    match found {
        Ok(_) => refused.is_none(),
        Err(bad) => refused == Some(bad.why),
    }
}

/// Whether the text spells a map, and it passes the test, or is refused for a reason.
fn is_checked<R: Threads + Sync>(
    rt: &R,
    alloc: Global,
    rank: u8,
    elements: u8,
    text: &str,
    refused: Option<ThreeRefused>,
) -> bool
    requires low { 1 ≤ elements }
    requires high { elements ≤ MAX_ELEMENTS }
    requires part { rank ≤ elements }
{
    match map_of(alloc, rank, elements, text) {
        Ok(map) => is_answer(check(rt, map), refused),
        Err(_) => false,
    }
}

// The second has no basis. The bases of the third are 12, 13 and 34, and neither 23 nor 24 is one. In the last the
// value of 135 is negated: with 1 as the list, the relation of 2, 3, 4 and 5 is the first that fails.
#[test]
fn accepted_and_refused(rt: HostRuntime) {
    let alloc = rt.alloc();
    let exchange = ThreeRefused::NoExchange {
        b: Subset::from_mask(0b11, 4),
        c: Subset::from_mask(0b1100, 4),
        e: 1,
    };
    let relation = ThreeRefused::ThreeTerm {
        p: Subset::from_mask(0b1, 6),
        q: Subset::from_mask(0b11110, 6),
    };
    hold(
        &rt,
        &[
            ("accepted", is_checked(&rt, alloc, 3, 4, "++++", None)),
            (
                "all zero",
                is_checked(&rt, alloc, 1, 3, "000", Some(ThreeRefused::AllZero)),
            ),
            (
                "no exchange",
                is_checked(&rt, alloc, 2, 4, "++000+", Some(exchange)),
            ),
            (
                "a three-term relation",
                is_checked(&rt, alloc, 3, 6, "+++++-++++++++++++++", Some(relation)),
            ),
        ],
    );
}
