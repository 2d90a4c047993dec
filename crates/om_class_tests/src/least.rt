//! Least chirotopes and others of their classes, worked out by another program, which tries all signed permutations.

ghost use Rattle.std.specs.Prelude.{◌≡◌, IfSome};

use om_chirotope::Chirotope;
use om_least::{is_before, is_least};
use om_samples::chirotope_of;
use std::alloc::Global;
use std::thread::Threads;

/// The classes of rank 3 on five elements in order: the least chirotope of each, and another of the class.
const CLASSES: [(&str, &str); 13] = [
    ("----------", "--++-+-+-+"),
    ("---------0", "-++++-++0+"),
    ("-----0--00", "0-+-+-00++"),
    ("-----0-0++", "--+-0-0+++"),
    ("--0-00-000", "--0-00+000"),
    ("------0000", "+00--0++0-"),
    ("-----00000", "----0+0000"),
    ("--0-000---", "--00++0++0"),
    ("--0-000000", "0000000-+-"),
    ("---0000000", "-00-+00000"),
    ("--00--0000", "000++0++00"),
    ("--00000000", "-00000-000"),
    ("-000000000", "0-00000000"),
];

/// The chirotope of a text.
fn sample<R: Threads + Sync>(
    rt: &R,
    alloc: Global,
    rank: u8,
    elements: u8,
    text: &str,
) -> Option<Chirotope>
    ensures rank { IfSome result (λ c. c.rank ≡ rank) }
    ensures elements { IfSome result (λ c. c.elements ≡ elements) }
{
    match chirotope_of(rt, alloc, rank, elements, text) {
        Ok(chi) => Some(chi),
        Err(_) => None,
    }
}

/// Whether the chirotope of a text is least; None if there is none.
fn tested<R: Threads + Sync>(
    rt: &R,
    alloc: Global,
    rank: u8,
    elements: u8,
    text: &str,
) -> Option<bool> {
    let chi = sample(rt, alloc, rank, elements, text)?;
    Some(is_least(&chi))
}

/// Whether the first of two texts of rank 3 on five elements comes before the second; None if one isn't a chirotope's.
fn compared<R: Threads + Sync>(rt: &R, alloc: Global, first: &str, second: &str) -> Option<bool> {
    let a = sample(rt, alloc, 3, 5, first)?;
    let b = sample(rt, alloc, 3, 5, second)?;
    Some(is_before(&a, &b))
}

#[test]
fn of_five_elements(rt: HostRuntime) {
    let alloc = rt.alloc();
    for (least, other) in CLASSES {
        assert!(rt; tested(&rt, alloc, 3, 5, least) == Some(true));
        assert!(rt; tested(&rt, alloc, 3, 5, other) == Some(false));
        assert!(rt; compared(&rt, alloc, least, other) == Some(true));
        assert!(rt; compared(&rt, alloc, other, least) == Some(false));
        assert!(rt; compared(&rt, alloc, least, least) == Some(false));
    }
}

// The signs are compared from the sets without the last elements on: in lexicographic order of the sets the second of
// the two comes first.
#[test]
fn read_in_reverse(rt: HostRuntime) {
    let alloc = rt.alloc();
    assert!(rt; compared(&rt, alloc, "-----0--00", "-----0-0++") == Some(true));
    assert!(rt; compared(&rt, alloc, "--0-00-000", "------0000") == Some(true));
    assert!(rt; compared(&rt, alloc, "------0000", "--0-00-000") == Some(false));
}

#[test]
fn of_other_ranks(rt: HostRuntime) {
    let alloc = rt.alloc();
    for least in [
        "------", "-----0", "--0-00", "---000", "--00--", "--0000", "-00000",
    ] {
        assert!(rt; tested(&rt, alloc, 2, 4, least) == Some(true));
    }
    for other in ["++++++", "0-----", "-++000", "--00++"] {
        assert!(rt; tested(&rt, alloc, 2, 4, other) == Some(false));
    }
    assert!(rt; tested(&rt, alloc, 1, 3, "--0") == Some(true));
    assert!(rt; tested(&rt, alloc, 1, 3, "-0-") == Some(false));
    assert!(rt; tested(&rt, alloc, 3, 3, "-") == Some(true));
    assert!(rt; tested(&rt, alloc, 3, 3, "+") == Some(false));
    assert!(rt; tested(&rt, alloc, 0, 2, "-") == Some(true));
    assert!(rt; tested(&rt, alloc, 0, 2, "+") == Some(true));
}

#[test]
fn of_nine_elements(rt: HostRuntime) {
    let alloc = rt.alloc();
    let least =
        "---------------------+--+-++-------------------++-------------++-------+---+-+--+---";
    let other =
        "+++-+--++-+----+++-+--+--++-----+++--++--+++--------++--+++---+-++--+++++++---+---++";
    assert!(rt; tested(&rt, alloc, 3, 9, least) == Some(true));
    assert!(rt; tested(&rt, alloc, 3, 9, other) == Some(false));
}
