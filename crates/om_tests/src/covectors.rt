//! Lists that satisfy the axioms of covectors, their members of minimal support, and one list that violates each
//! axiom.

ghost use Rattle.std.specs.Prelude.{◌≡◌, IfOk};

use super::helpers::{are_found, hold};
use om_covectors::{BadCov, CovRefused, Covectors, check, minimal_vectors};
use om_samples::{SampleError, covectors_of, vector_of, vectors_of};
use om_signs::{List, SignVec};
use std::alloc::Global;
use std::process::Abort;
use std::thread::Threads;

/// The covectors of three vectors in the plane, each two of them in the same orientation: the signs of a, a + b and
/// b.
const PLANE: [&str; 13] = [
    "000", "+++", "0++", "---", "0--", "++-", "+0-", "--+", "-0+", "+--", "++0", "-++", "--0",
];

/// Whether covectors were refused for this reason.
fn is_bad(found: Result<Covectors, BadCov>, why: CovRefused) -> bool {
    match found {
        Ok(_) => false,
        Err(bad) => bad.why == why,
    }
}

/// Whether some texts spell a list, and it is refused for this reason.
fn is_refused<R: Threads + Sync>(
    rt: &R,
    alloc: Global,
    elements: u8,
    texts: &[&str],
    why: CovRefused,
) -> bool {
    match vectors_of(alloc, elements, texts) {
        Ok(list) => is_bad(check(rt, elements, list), why),
        Err(_) => false,
    }
}

/// Asserts that there are this many covectors of three elements, that `+0-` is among them and `+0+` isn't, and that
/// their members of minimal support are those of a text.
fn are_seen<R: Abort>(rt: &R, found: Result<Covectors, SampleError>, size: usize, text: &str)
    requires { IfOk found (λ c. c.elements ≡ 3) }
{
    let covectors = found.expect(rt, "covectors");
    hold(
        rt,
        &[
            ("elements", covectors.elements() == 3),
            ("size", covectors.members().len() == size),
            ("+0-", covectors.contains(vector_of(3, "+0-"))),
            ("+0+", !covectors.contains(vector_of(3, "+0+"))),
            ("minimal ones", are_found(covectors.minimal(), text)),
            ("size of the list", covectors.into_list().len() == size),
        ],
    );
}

/// Whether the vectors of minimal support among some vectors are those of a text.
fn are_minimal(alloc: Global, vectors: Result<List<SignVec>, SampleError>, text: &str) -> bool {
    match vectors {
        Ok(vectors) => are_found(minimal_vectors(alloc, vectors.as_slice()), text),
        Err(_) => false,
    }
}

#[test]
fn accepted_and_minimal(rt: HostRuntime) {
    let alloc = rt.alloc();
    are_seen(
        &rt,
        covectors_of(&rt, alloc, 3, &PLANE),
        13,
        "0++ 0-- +0- -0+ ++0 --0",
    );
    let vectors = vectors_of(alloc, 3, &["++0", "000", "-00", "0-+", "+00", "-++"]);
    assert!(rt; are_minimal(alloc, vectors, "-00 0-+ +00"));
}

// without zero, without a negative, without a composition and without elimination
#[test]
fn refused(rt: HostRuntime) {
    let alloc = rt.alloc();
    let no_composition = CovRefused::NoComposition { i: 2, j: 4 };
    let no_elimination = CovRefused::NoElimination { i: 2, j: 4, e: 2 };
    hold(
        &rt,
        &[
            (
                "no zero",
                is_refused(&rt, alloc, 1, &["+", "-"], CovRefused::NoZero),
            ),
            (
                "no negative",
                is_refused(&rt, alloc, 1, &["0", "+"], CovRefused::NoNegative { i: 2 }),
            ),
            (
                "no composition",
                is_refused(
                    &rt,
                    alloc,
                    2,
                    &["00", "+0", "-0", "0+", "0-"],
                    no_composition,
                ),
            ),
            (
                "no elimination",
                is_refused(
                    &rt,
                    alloc,
                    2,
                    &["00", "++", "--", "+-", "-+"],
                    no_elimination,
                ),
            ),
        ],
    );
}
