//! Minors and reorientations computed by hand: 1 and 2 are parallel, 3 is a coloop and 4 a loop.

ghost use Rattle.std.specs.Prelude.{◌≡◌, IfOk};

use super::helpers::{are_circuits, are_cocircuits, are_covectors, hold, is_chirotope};
use om_chirotope::Chirotope;
use om_circuits::{Circuits, Cocircuits};
use om_covectors::Covectors;
use om_minors::{
    MinorError, contract_chirotope, contract_circuits, contract_cocircuits, contract_covectors,
    delete_chirotope, delete_circuits, delete_cocircuits, delete_covectors, reorient_chirotope,
    reorient_circuits, reorient_cocircuits, reorient_covectors,
};
use om_samples::{
    SampleError, are_vectors, chirotope_of, circuits_of, cocircuits_of, covectors_of, is_map,
};
use std::alloc::Global;
use std::process::Abort;

const CIRCUITS: [&str; 4] = ["+-00", "-+00", "000+", "000-"];

const COCIRCUITS: [&str; 4] = ["++00", "--00", "00+0", "00-0"];

const COVECTORS: [&str; 9] = [
    "0000", "++00", "--00", "00+0", "00-0", "+++0", "++-0", "--+0", "---0",
];

/// Asserts that the deletions of 1 and 3, the contractions of 1 and 4 and the reorientation on 1 have the signs
/// computed by hand. In the last the value of 13 becomes minus, and that of 23 is unchanged.
fn of_chirotope<R: Abort>(rt: &R, alloc: Global, found: Result<Chirotope, SampleError>)
    requires { IfOk found (λ c. c.elements ≡ 4) }
{
    let chi = found.expect(rt, "a chirotope");
    hold(
        rt,
        &[
            (
                "a chirotope, 1 deleted",
                is_chirotope(delete_chirotope(alloc, &chi, 1), 2, 3, "+00"),
            ),
            (
                "a chirotope, 3 deleted",
                is_chirotope(delete_chirotope(alloc, &chi, 3), 1, 3, "++0"),
            ),
            (
                "a chirotope, 1 contracted",
                is_chirotope(contract_chirotope(alloc, &chi, 1), 1, 3, "0+0"),
            ),
            (
                "a chirotope, 4 contracted",
                is_chirotope(contract_chirotope(alloc, &chi, 4), 2, 3, "0++"),
            ),
            (
                "a chirotope, 1 reoriented",
                is_map(&reorient_chirotope(chi, 0b1).into_raw(), 2, 4, "0+0-00"),
            ),
        ],
    );
}

/// Whether there is a chirotope of one element, and this is why there is no deletion and no contraction of 1.
fn is_last(alloc: Global, found: Result<Chirotope, SampleError>, why: MinorError) -> bool
    requires { IfOk found (λ c. c.elements ≡ 1) }
{
    match found {
        Ok(chi) => {
            let refused = [
                delete_chirotope(alloc, &chi, 1).err(),
                contract_chirotope(alloc, &chi, 1).err(),
            ];
            refused == [Some(why); 2]
        }
        Err(_) => false,
    }
}

/// Asserts that the deletion and the contraction of 1 and the reorientation on 1 and 4 have the circuits computed by
/// hand.
fn of_circuits<R: Abort>(rt: &R, alloc: Global, found: Result<Circuits, SampleError>)
    requires { IfOk found (λ c. c.0.elements ≡ 4) }
{
    let circuits = found.expect(rt, "circuits");
    hold(
        rt,
        &[
            (
                "circuits, 1 deleted",
                are_circuits(delete_circuits(alloc, &circuits, 1), "00+ 00-"),
            ),
            (
                "circuits, 1 contracted",
                are_circuits(contract_circuits(alloc, &circuits, 1), "-00 +00 00+ 00-"),
            ),
            (
                "circuits, 1 and 4 reoriented",
                are_vectors(
                    reorient_circuits(circuits, 0b1001).0.members(),
                    "--00 ++00 000+ 000-",
                ),
            ),
        ],
    );
}

/// Asserts that the deletion and the contraction of 1 and the reorientation on 2 have the cocircuits computed by hand.
fn of_cocircuits<R: Abort>(rt: &R, alloc: Global, found: Result<Cocircuits, SampleError>)
    requires { IfOk found (λ c. c.0.elements ≡ 4) }
{
    let cocircuits = found.expect(rt, "cocircuits");
    hold(
        rt,
        &[
            (
                "cocircuits, 1 deleted",
                are_cocircuits(delete_cocircuits(alloc, &cocircuits, 1), "+00 -00 0+0 0-0"),
            ),
            (
                "cocircuits, 1 contracted",
                are_cocircuits(contract_cocircuits(alloc, &cocircuits, 1), "0+0 0-0"),
            ),
            (
                "cocircuits, 2 reoriented",
                are_vectors(
                    reorient_cocircuits(cocircuits, 0b10).0.members(),
                    "+-00 -+00 00+0 00-0",
                ),
            ),
        ],
    );
}

/// Asserts that the minors and the reorientation on 2 and 3 have the covectors computed by hand, with the deletion of
/// 3.
fn of_covectors<R: Abort>(rt: &R, alloc: Global, found: Result<Covectors, SampleError>)
    requires { IfOk found (λ c. c.elements ≡ 4) }
{
    let covectors = found.expect(rt, "covectors");
    hold(
        rt,
        &[
            (
                "covectors, 3 deleted",
                are_covectors(delete_covectors(alloc, &covectors, 3), "000 ++0 --0"),
            ),
            (
                "covectors, 1 contracted",
                are_covectors(contract_covectors(alloc, &covectors, 1), "000 0+0 0-0"),
            ),
            (
                "covectors, 2 and 3 reoriented",
                are_vectors(
                    reorient_covectors(covectors, 0b110).members(),
                    "0000 +-00 -+00 00+0 00-0 +-+0 +--0 -++0 -+-0",
                ),
            ),
        ],
    );
}

#[test]
fn of_each_kind(rt: HostRuntime) {
    let alloc = rt.alloc();
    of_chirotope(&rt, alloc, chirotope_of(&rt, alloc, 2, 4, "0+0+00"));
    let one = chirotope_of(&rt, alloc, 1, 1, "+");
    assert!(rt; is_last(alloc, one, MinorError::LastElement));
    of_circuits(&rt, alloc, circuits_of(&rt, alloc, 4, &CIRCUITS));
    of_cocircuits(&rt, alloc, cocircuits_of(&rt, alloc, 4, &COCIRCUITS));
    of_covectors(&rt, alloc, covectors_of(&rt, alloc, 4, &COVECTORS));
}
