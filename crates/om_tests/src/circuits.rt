//! Lists that satisfy the axioms of circuits, and one list that violates each axiom.

use om_circuits::{BadSet, SetRefused, SignedSet, check};
use om_samples::{are_vectors, vectors_of};
use std::alloc::Global;
use std::thread::Threads;

/// Whether a set of this many elements was accepted, with the vectors of a text, or refused for a reason.
fn is_answer(
    found: Result<SignedSet, BadSet>,
    refused: Option<SetRefused>,
    elements: u8,
    text: &str,
) -> bool {
    match found {
        Ok(set) => {
            refused.is_none() & (set.elements() == elements) & are_vectors(set.members(), text)
        }
        Err(bad) => refused == Some(bad.why),
    }
}

/// Whether some texts spell a list, and the check accepts it with the vectors of a text, or refuses it for a
/// reason.
fn is_checked<R: Threads + Sync>(
    rt: &R,
    alloc: Global,
    elements: u8,
    texts: &[&str],
    refused: Option<SetRefused>,
    text: &str,
) -> bool {
    match vectors_of(alloc, elements, texts) {
        Ok(list) => is_answer(check(rt, elements, list), refused, elements, text),
        Err(_) => false,
    }
}

/// Numbers of elements, lists, why each is refused, and the vectors of the set if it isn't. First the circuits of two
/// parallel elements, a coloop and a loop. In the others the zero vector is second, there is no negative, supports are
/// nested, and no vector eliminates 2 from `0+-` and `+-0`.
const ANSWERS: [(u8, &[&str], Option<SetRefused>, &str); 5] = [
    (
        4,
        &["+-00", "-+00", "000+", "000-"],
        None,
        "+-00 -+00 000+ 000-",
    ),
    (2, &["+-", "00", "-+"], Some(SetRefused::Zero { i: 2 }), ""),
    (2, &["+-"], Some(SetRefused::NoNegative { i: 1 }), ""),
    (
        2,
        &["+0", "-0", "++", "--"],
        Some(SetRefused::Nested { i: 1, j: 3 }),
        "",
    ),
    (
        3,
        &["+-0", "0+-", "-+0", "0-+"],
        Some(SetRefused::NoElimination { i: 2, j: 1, e: 2 }),
        "",
    ),
];

#[test]
fn answers(rt: HostRuntime) {
    for (elements, texts, refused, text) in ANSWERS.iter() {
        assert!(rt; is_checked(&rt, rt.alloc(), *elements, texts, *refused, text));
    }
}
