//! Runs of each command in memory, against answers computed by hand.

use super::helpers::{AMPLE, OUT_OF_MEMORY, On, Row, both_end, end_over_sure};
use std::alloc::Global;
use std::thread::Threads;

/// The all-plus chirotope of rank 3 on four elements.
const PLUS: &str = "om 1\nchirotope 3 4\n++++\nend\n";

/// Elements 1 and 2 are parallel, 3 is a coloop, 4 a loop.
const LOOP: &str = "om 1\nchirotope 2 4\n0+0+00\nend\n";

/// Runs of each command, and some that are refused.
pub const RUNS: [Row; 26] = [
    ("accept", PLUS, 0, "accepted\n"),
    (
        "accept",
        "om 1\nchirotope 2 4\n+-++++\nend\n",
        1,
        "refused relation 1,2,3 4\n",
    ),
    (
        "accept",
        "om 1\nchirotope 3 4\n++++\nend\nend\n",
        1,
        "refused line 5 after\n",
    ),
    ("accept x", PLUS, 2, "usage 2\n"),
    ("", PLUS, 2, "usage 1\n"),
    ("member ++-+", PLUS, 0, "covector\n"),
    (
        "convert circuits",
        PLUS,
        0,
        "om 1\ncircuits 4\n-+-+\n+-+-\nend\n",
    ),
    (
        "convert covectors",
        "om 1\nchirotope 16 16\n+\nend\n",
        3,
        "limit members 4096\n",
    ),
    ("dual", PLUS, 0, "om 1\nchirotope 1 4\n+-+-\nend\n"),
    ("delete 3", LOOP, 0, "om 1\nchirotope 1 3\n++0\nend\n"),
    ("contract 4", LOOP, 0, "om 1\nchirotope 2 3\n0++\nend\n"),
    ("reorient 4", PLUS, 0, "om 1\nchirotope 3 4\n+---\nend\n"),
    (
        "wiring",
        PLUS,
        0,
        "om 1\nwiring 4\n1-2\n2-3\n1-2\n3-4\n2-3\n1-2\nend\n",
    ),
    (
        "mutations",
        PLUS,
        0,
        "mutations 4\n1,2,3\n1,2,4\n1,3,4\n2,3,4\nend\n",
    ),
    ("flip 1 2 3", PLUS, 0, "om 1\nchirotope 3 4\n-+++\nend\n"),
    (
        "extend --first=1",
        PLUS,
        0,
        "om 1\nextensions 4\n------\nmore\n",
    ),
    (
        "hull",
        PLUS,
        0,
        "acyclic\nextreme 1 -0+0\nextreme 2 0-0+\nextreme 3 +0-0\nextreme 4 0+0-\nend\n",
    ),
    ("paint GBBB 1", PLUS, 0, "circuit -+-+\n"),
    (
        "lexext -2",
        "om 1\nchirotope 0 2\n-\nend\n",
        0,
        "om 1\nchirotope 0 3\n-\nend\n",
    ),
    ("threeterm", PLUS, 0, "accepted\n"),
    (
        "upgrade",
        LOOP,
        0,
        "om 2\nchirotope 2 4\nnames e1 e2 e3 e4\norder revlex\n0++000\nend\n",
    ),
    (
        "make 7 --count=4",
        "",
        0,
        "om 1\npoints 4\n1 0 0\n0 1 0\n0 0 1\n-2 0 1\nend\nplus 2\nzero 1\nminus 1\ncocircuits 8\ncovectors 39\nmutations 3\nback equal\n",
    ),
    (
        "decide --box=1 --steps=20",
        PLUS,
        0,
        "om 1\nchirotope 3 4\n++++\nend\nrealizable\nvector 1 0 0\nvector 0 1 0\nvector 0 0 1\nvector 1 -1 1\nend\n",
    ),
    (
        "check",
        "om 1\nchirotope 3 4\n++++\nend\nrealizable\nvector 1 0 0\nvector 0 1 0\nvector 0 0 1\nvector 1 -1 1\nend\n",
        0,
        "valid realizable\n",
    ),
    (
        "check",
        "om 1\nchirotope 3 4\n++++\nend\nrealizable\nend\n",
        1,
        "refused number 4 0\n",
    ),
    (
        "check",
        "om 1\nchirotope 3 4\n++++\nend\nperhaps\n",
        1,
        "refused line 5 claim\n",
    ),
];

#[test]
fn each_command(rt: HostRuntime) {
    let alloc = rt.alloc();
    for row in RUNS.iter() {
        assert!(rt; both_end(&rt, alloc, On::Input, row), "{}", row.0);
    }
}

/// Whether a run ends as a row says, or runs out of memory with nothing written. If memory runs out before the run,
/// this is true.
fn ends_or_wants<R: Threads + Sync>(rt: &R, alloc: Global, row: &Row) -> bool {
    let (line, input, code, output) = *row;
    let (pieces, text) = ([input.as_bytes()], output.as_bytes());
    match end_over_sure(rt, alloc, On::Input, line, &pieces, AMPLE, text) {
        Ok(end) => end == (code, Some(text.len())) || end == (OUT_OF_MEMORY, Some(0)),
        Err(_) => true,
    }
}

// for runs of the tests in which an allocation fails, as memory is ample in the others
#[test]
fn each_command_or_want_of_memory(rt: HostRuntime) {
    let alloc = rt.alloc();
    for row in RUNS.iter() {
        assert!(rt; ends_or_wants(&rt, alloc, row), "{}", row.0);
    }
}
