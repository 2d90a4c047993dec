//! Runs of `check` in memory: claims that are cut off, and numbers around their limits.

use super::helpers::{AMPLE, On, end_over_sure};
use std::alloc::Global;
use std::thread::Threads;

/// Vectors of the all-plus chirotope of rank 3 on four elements, in ten lines.
const REALIZABLE: &[u8] =
    b"om 1\nchirotope 3 4\n++++\nend\nrealizable\nvector 1 0 0\nvector 0 1 0\nvector 0 0 1\nvector 1 -1 1\nend\n";

/// 21 vectors, one more than the most elements.
const VECTORS: &str =
    "vector 0 0 0\nvector 0 0 0\nvector 0 0 0\nvector 0 0 0\nvector 0 0 0\nvector 0 0 0\nvector 0 0 0\n\
    vector 0 0 0\nvector 0 0 0\nvector 0 0 0\nvector 0 0 0\nvector 0 0 0\nvector 0 0 0\nvector 0 0 0\n\
    vector 0 0 0\nvector 0 0 0\nvector 0 0 0\nvector 0 0 0\nvector 0 0 0\nvector 0 0 0\nvector 0 0 0\n";

/// A weight with a number above the greatest one.
const WEIGHT: &str = "undecided\nweight 1 2 3 1267650600228229401496703205377\n";

/// How many lines of [`REALIZABLE`] are given, what comes after them, the exit code and the answer.
const CLAIMS: [(usize, &str, u8, &str); 13] = [
    (0, "", 1, "refused line 1 missing\n"),
    (1, "", 1, "refused line 2 missing\n"),
    (2, "", 1, "refused line 3 missing\n"),
    (3, "", 1, "refused line 4 missing\n"),
    (4, "", 1, "refused line 5 missing\n"),
    (5, "", 1, "refused line 6 missing\n"),
    (6, "", 1, "refused line 7 missing\n"),
    (7, "", 1, "refused line 8 missing\n"),
    (8, "", 1, "refused line 9 missing\n"),
    (9, "", 1, "refused line 10 missing\n"),
    (10, "", 0, "valid realizable\n"),
    (5, VECTORS, 1, "refused line 26 many\n"),
    (4, WEIGHT, 1, "refused line 6 entry\n"),
];

/// Whether `check` of these pieces of an input ends with this exit code and this answer.
fn checks<R: Threads + Sync>(
    rt: &R,
    alloc: Global,
    pieces: &[&[u8]],
    code: u8,
    answer: &[u8],
) -> bool {
    let end = end_over_sure(rt, alloc, On::Input, "check", pieces, AMPLE, answer);
    end == Ok((code, Some(answer.len())))
}

/// The first lines, this many.
fn first_lines(text: &[u8], count: usize) -> &[u8] {
    let mut lines = 0usize;
    for (at, byte) in text.iter().enumerate() {
        if lines == count {
            return &text[..at];
        }
        if *byte == b'\n' {
            lines = lines.saturating_add(1);
        }
    }
    text
}

// cut off after each line, whole, and with lines past their limits
#[test]
fn first_lines_of_a_claim(rt: HostRuntime) {
    let alloc = rt.alloc();
    for (count, more, code, answer) in CLAIMS.iter() {
        let pieces = [first_lines(REALIZABLE, *count), more.as_bytes()];
        assert!(rt;
            checks(&rt, alloc, &pieces, *code, answer.as_bytes()),
            "{answer}"
        );
    }
}

/// A certificate of the non-Pappus chirotope up to its first multiplicity, and the lines after it.
const BEFORE: &[u8] =
    b"om 1\nchirotope 3 9\n0++++++++++++--------0-0++++++++++----0---+0+++++---0+-0++++++++\n0------------------+\nend\nnonrealizable\neq 1 2 3 4 7 3 2 ";

const BEHIND: &[u8] =
    b"\neq 1 4 5 7 9 3 1 1\neq 1 4 6 7 8 1 3 1\neq 4 1 5 6 7 1 2 1\neq 4 1 2 7 9 1 3 1\neq 4 1 3 7 8 3 1 1\nlt 7 1 4 8 9 3 2 1\neq 7 1 2 4 6 3 1 1\neq 7 1 3 4 5 1 3 1\nend\n";

/// Multiplicities, the exit code and the answer.
const MULTIPLICITIES: [(&str, u8, &str); 4] = [
    ("1", 0, "valid nonrealizable\n"),
    ("0", 1, "refused line 7 entry\n"),
    (
        "9223372036854775808",
        1,
        "refused unbalanced 1,2,4 1 9223372036854775808\n",
    ),
    ("9223372036854775809", 1, "refused line 7 entry\n"),
];

#[test]
fn multiplicities(rt: HostRuntime) {
    let alloc = rt.alloc();
    for (multiplicity, code, answer) in MULTIPLICITIES.iter() {
        let pieces = [BEFORE, multiplicity.as_bytes(), BEHIND];
        assert!(rt;
            checks(&rt, alloc, &pieces, *code, answer.as_bytes()),
            "{multiplicity}"
        );
    }
}
