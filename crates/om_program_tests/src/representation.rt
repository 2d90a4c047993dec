//! Documents of each kind as oriented matroids, and the chirotopes of these.

ghost use Rattle.std.specs.Prelude.{◌≤◌, length};
ghost use Rattle.om_signs.specs.declared.limits.TheConstants.{MAX_READ};

use om_chirotope::Chirotope;
use om_representation::{Representation, Unchosen, Unrepresented, choose_chirotope, represent};
use om_samples::is_map;
use om_text::parse;
use std::alloc::Global;
use std::thread::Threads;

/// Whether a chirotope was chosen, with this rank and these signs, on three elements.
fn is_chosen(chosen: Result<Chirotope, Unchosen>, rank: u8, signs: &str) -> bool {
    match chosen {
        Ok(chirotope) => is_map(&chirotope.into_raw(), rank, 3, signs),
        Err(_) => false,
    }
}

/// Whether there is an oriented matroid, and this is its chirotope.
fn has_chirotope(
    alloc: Global,
    found: Result<Representation, Unrepresented>,
    rank: u8,
    signs: &str,
) -> bool {
    match found {
        Ok(representation) => is_chosen(choose_chirotope(alloc, representation), rank, signs),
        Err(_) => false,
    }
}

/// Whether a text is a document of an oriented matroid on three elements with this chirotope.
fn gives<R: Threads + Sync>(rt: &R, alloc: Global, text: &[u8], rank: u8, signs: &str) -> bool
    requires { length text.now ≤ MAX_READ }
{
    match parse(alloc, text) {
        Ok(document) => has_chirotope(alloc, represent(rt, alloc, document), rank, signs),
        Err(_) => false,
    }
}

// a map as it is, the normal chirotope of lists, and the map of wirings and of points
#[test]
fn each_kind(rt: HostRuntime) {
    let alloc = rt.alloc();
    for (case, holds) in [
        (
            "chirotope",
            gives(&rt, alloc, b"om 1\nchirotope 3 3\n-\nend\n", 3, "-"),
        ),
        (
            "circuits",
            gives(&rt, alloc, b"om 1\ncircuits 3\nend\n", 3, "+"),
        ),
        (
            "cocircuits",
            gives(&rt, alloc, b"om 1\ncocircuits 3\n++-\n--+\nend\n", 1, "++-"),
        ),
        (
            "covectors",
            gives(
                &rt,
                alloc,
                b"om 1\ncovectors 3\n000\n++-\n--+\nend\n",
                1,
                "++-",
            ),
        ),
        (
            "wiring",
            gives(&rt, alloc, b"om 1\nwiring 3\n2-3 1-2 2-3\nend\n", 3, "-"),
        ),
        (
            "points",
            gives(
                &rt,
                alloc,
                b"om 1\npoints 3\n0 1 0\n1 0 0\n0 0 1\nend\n",
                3,
                "-",
            ),
        ),
    ] {
        assert!(rt; holds, "{case}");
    }
}
