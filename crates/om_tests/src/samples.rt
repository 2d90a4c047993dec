//! Samples that are what their texts spell, and texts that spell none.

use super::helpers::{are_found, hold, is_chirotope};
use om_samples::{
    SampleError, chirotope_of, circuits_of, covectors_of, sign_of, vector_of, vectors_of,
};
use om_signs::Sign;

/// The first vector occurs twice.
const TWICE: [&str; 3] = ["+-", "-+", "+-"];

// a vector that occurs twice is kept once
#[test]
fn written(rt: HostRuntime) {
    let alloc = rt.alloc();
    let found = [
        is_chirotope(chirotope_of(&rt, alloc, 1, 3, "0+."), 1, 3, "0+0"),
        is_chirotope(chirotope_of(&rt, alloc, 1, 3, "0+."), 1, 3, "0+-"),
        are_found(vectors_of(alloc, 2, &TWICE), "-+ +-"),
        are_found(vectors_of(alloc, 2, &TWICE), "-+ ++"),
        are_found(vectors_of(alloc, 2, &TWICE), "-+"),
    ];
    assert!(rt; found == [true, false, true, false, false]);
}

#[test]
fn signs_and_vectors(rt: HostRuntime) {
    assert!(rt; [sign_of(b'-'), sign_of(b'x')] == [Sign::Minus, Sign::Zero]);
    assert!(rt; vector_of(3, "+") == vector_of(3, "+00"));
}

/// Whether texts spell nothing of what was requested.
fn is_refused<T: Drop>(found: Result<T, SampleError>) -> bool {
    match found {
        Ok(_) => false,
        Err(error) => error == SampleError::Refused,
    }
}

// a sign too few, no basis, a rank above the elements, no element; no zero vector, no negative, an element too many
#[test]
fn refused(rt: HostRuntime) {
    let alloc = rt.alloc();
    hold(
        &rt,
        &[
            (
                "a sign too few",
                is_refused(chirotope_of(&rt, alloc, 2, 3, "+-")),
            ),
            (
                "no basis",
                is_refused(chirotope_of(&rt, alloc, 2, 3, "000")),
            ),
            (
                "a rank above the elements",
                is_refused(chirotope_of(&rt, alloc, 4, 3, "")),
            ),
            (
                "no element",
                is_refused(chirotope_of(&rt, alloc, 0, 0, "+")),
            ),
            (
                "no zero vector",
                is_refused(covectors_of(&rt, alloc, 2, &["++", "--"])),
            ),
            (
                "no negative",
                is_refused(circuits_of(&rt, alloc, 2, &["++"])),
            ),
            (
                "an element too many",
                is_refused(vectors_of(alloc, 21, &[])),
            ),
        ],
    );
}
