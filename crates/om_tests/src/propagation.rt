//! Chirotopes of circuits and of cocircuits, and their ranks: 1 and 2 are parallel, 3 is a coloop and 4 a loop.

ghost use Rattle.std.specs.Prelude.{◌≡◌, IfOk};

use super::helpers::{hold, is_chirotope};
use om_circuits::{Circuits, Cocircuits};
use om_convert::{
    chirotope_of_circuits, chirotope_of_cocircuits, rank_circuits, rank_cocircuits, rank_covectors,
};
use om_covectors::Covectors;
use om_samples::{SampleError, circuits_of, cocircuits_of, covectors_of};
use std::alloc::Global;

/// Whether there are circuits with four elements, and they have rank 2, and their chirotope has the signs of a text.
fn of_circuits(alloc: Global, found: Result<Circuits, SampleError>, text: &str) -> bool
    requires { IfOk found (λ c. c.0.elements ≡ 4) }
{
    match found {
        Ok(circuits) => {
            rank_circuits(&circuits) == 2
                && is_chirotope(chirotope_of_circuits(alloc, &circuits, 2), 2, 4, text)
        }
        Err(_) => false,
    }
}

/// Whether there are cocircuits with four elements, and they have rank 2, and their chirotope has the signs of a
/// text.
fn of_cocircuits(alloc: Global, found: Result<Cocircuits, SampleError>, text: &str) -> bool
    requires { IfOk found (λ c. c.0.elements ≡ 4) }
{
    match found {
        Ok(cocircuits) => {
            rank_cocircuits(&cocircuits) == 2
                && is_chirotope(chirotope_of_cocircuits(alloc, &cocircuits, 2), 2, 4, text)
        }
        Err(_) => false,
    }
}

/// Whether there are covectors, and they have this rank.
fn of_covectors(found: Result<Covectors, SampleError>, rank: u8) -> bool {
    match found {
        Ok(covectors) => rank_covectors(&covectors) == rank,
        Err(_) => false,
    }
}

#[test]
fn of_each_kind(rt: HostRuntime) {
    let alloc = rt.alloc();
    hold(
        &rt,
        &[
            (
                "circuits",
                of_circuits(
                    alloc,
                    circuits_of(&rt, alloc, 4, &["+-00", "-+00", "000+", "000-"]),
                    "0+0+00",
                ),
            ),
            (
                "cocircuits",
                of_cocircuits(
                    alloc,
                    cocircuits_of(&rt, alloc, 4, &["++00", "--00", "00+0", "00-0"]),
                    "0+0+00",
                ),
            ),
            // the only pair of opposite covectors
            (
                "covectors",
                of_covectors(covectors_of(&rt, alloc, 3, &["000", "+-0", "-+0"]), 1),
            ),
        ],
    );
}
