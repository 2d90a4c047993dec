//! One oriented matroid in three representations, and two that differ.

use super::helpers::hold;
use om_oriented::{Differ, Oriented, same};
use om_samples::{SampleError, chirotope_of, circuits_of, cocircuits_of, covectors_of, vector_of};

/// The circuits of the chirotope of rank 3 on four elements whose signs are all plus.
const CIRCUITS: [&str; 2] = ["-+-+", "+-+-"];

/// Whether `++-+` is a covector and `+-+-` is none.
fn tells_apart<M: Oriented>(value: &M) -> bool {
    value.elements() == 4
        && value.is_covector(vector_of(4, "++-+"))
        && !value.is_covector(vector_of(4, "+-+-"))
}

/// Whether there is an oriented matroid that distinguishes the two in this way.
fn is_told_apart<M: Oriented + Drop>(found: Result<M, SampleError>) -> bool {
    match found {
        Ok(value) => tells_apart(&value),
        Err(_) => false,
    }
}

// the covectors are orthogonal to the circuits
#[test]
fn covectors_of_each_kind(rt: HostRuntime) {
    let alloc = rt.alloc();
    hold(
        &rt,
        &[
            (
                "chirotope",
                is_told_apart(chirotope_of(&rt, alloc, 3, 4, "++++")),
            ),
            (
                "circuits",
                is_told_apart(circuits_of(&rt, alloc, 4, &CIRCUITS)),
            ),
        ],
    );
}

/// Whether there are two oriented matroids with the same number of elements, and they compare like this in both
/// directions.
fn are_compared<A: Oriented, B: Oriented>(
    a: &Result<A, SampleError>,
    b: &Result<B, SampleError>,
    expected: Result<(), Differ>,
) -> bool {
    match (a, b) {
        (Ok(a), Ok(b)) if a.elements() == b.elements() => {
            [same(a, b), same(b, a)] == [expected; 2]
        }
        _ => false,
    }
}

/// Whether two oriented matroids compare like this; both are then dropped.
fn compare<A: Oriented + Drop, B: Oriented + Drop>(
    a: Result<A, SampleError>,
    b: Result<B, SampleError>,
    expected: Result<(), Differ>,
) -> bool {
    are_compared(&a, &b, expected)
}

#[test]
fn sameness_and_first_difference(rt: HostRuntime) {
    let alloc = rt.alloc();
    hold(
        &rt,
        &[
            // the circuits are those of the first chirotope
            (
                "the same",
                compare(
                    chirotope_of(&rt, alloc, 3, 4, "++++"),
                    circuits_of(&rt, alloc, 4, &CIRCUITS),
                    Ok(()),
                ),
            ),
            // the vectors `----`, `---0` and `---+` are orthogonal to the circuits of both, and `--0-` only to `-+-+`,
            // which is one of the second
            (
                "another sign",
                compare(
                    chirotope_of(&rt, alloc, 3, 4, "+++-"),
                    circuits_of(&rt, alloc, 4, &CIRCUITS),
                    Err(Differ {
                        x: vector_of(4, "--0-"),
                    }),
                ),
            ),
            // of two elements that are both loops only `00` is a covector; of two elements that are no loops, each
            // vector is one
            (
                "loops and no loops",
                compare(
                    cocircuits_of(&rt, alloc, 2, &["-0", "0-", "0+", "+0"]),
                    covectors_of(&rt, alloc, 2, &["00"]),
                    Err(Differ {
                        x: vector_of(2, "--"),
                    }),
                ),
            ),
            (
                "a copy",
                compare(
                    covectors_of(&rt, alloc, 2, &["00"]),
                    covectors_of(&rt, alloc, 2, &["00"]),
                    Ok(()),
                ),
            ),
        ],
    );
}
