//! One oriented matroid in its four representations: 1 and 2 are parallel, 3 is a coloop and 4 a loop.

use super::helpers::{are_circuits, are_cocircuits, are_covectors, hold, is_chirotope};
use om_chirotope::Chirotope;
use om_circuits::{Circuits, Cocircuits, SetRefused};
use om_convert::{
    ConvertError, ReadCovError, ReadSetError, chirotope_to_circuits, chirotope_to_cocircuits,
    chirotope_to_covectors, circuits_to_chirotope, circuits_to_cocircuits, circuits_to_covectors,
    cocircuits_to_chirotope, cocircuits_to_circuits, cocircuits_to_covectors,
    covectors_to_chirotope, covectors_to_circuits, covectors_to_cocircuits, rank_circuits,
    rank_cocircuits, rank_covectors, read_circuits, read_cocircuits, read_covectors,
};
use om_covectors::{CovRefused, Covectors};
use om_samples::{SampleError, chirotope_of, circuits_of, cocircuits_of, covectors_of, vectors_of};
use om_signs::List;
use std::alloc::{AllocError, Global};
use std::process::Abort;
use std::thread::Threads;

const SIGNS: &str = "0+0+00";

const CIRCUITS: &str = "+-00 -+00 000+ 000-";

const COCIRCUITS: &str = "++00 --00 00+0 00-0";

const COVECTORS: &str = "0000 ++00 --00 00+0 00-0 +++0 ++-0 --+0 ---0";

/// The text of [`CIRCUITS`].
const CIRCUIT_LIST: [&str; 4] = ["+-00", "-+00", "000+", "000-"];

/// The text of [`COCIRCUITS`].
const COCIRCUIT_LIST: [&str; 4] = ["++00", "--00", "00+0", "00-0"];

/// The text of [`COVECTORS`].
const COVECTOR_LIST: [&str; 9] = [
    "0000", "++00", "--00", "00+0", "00-0", "+++0", "++-0", "--+0", "---0",
];

/// Asserts that there is a chirotope, and that its circuits, cocircuits and covectors are those written above.
fn of_chirotope<R: Abort>(rt: &R, alloc: Global, found: Result<Chirotope, SampleError>) {
    let chi = found.expect(rt, "a chirotope");
    for (of, holds) in [
        (
            "circuits",
            are_circuits(chirotope_to_circuits(alloc, &chi), CIRCUITS),
        ),
        (
            "cocircuits",
            are_cocircuits(chirotope_to_cocircuits(alloc, &chi), COCIRCUITS),
        ),
        (
            "covectors",
            are_covectors(chirotope_to_covectors(alloc, &chi), COVECTORS),
        ),
    ] {
        assert!(rt; holds, "{of} of a chirotope");
    }
}

/// Asserts that there are circuits of rank 2, and that their chirotope, cocircuits and covectors are those written
/// above.
fn of_circuits<R: Abort>(rt: &R, alloc: Global, found: Result<Circuits, SampleError>) {
    let circuits = found.expect(rt, "circuits");
    for (of, holds) in [
        ("rank", rank_circuits(&circuits) == 2),
        (
            "chirotope",
            is_chirotope(circuits_to_chirotope(alloc, &circuits), 2, 4, SIGNS),
        ),
        (
            "cocircuits",
            are_cocircuits(circuits_to_cocircuits(alloc, &circuits), COCIRCUITS),
        ),
        (
            "covectors",
            are_covectors(circuits_to_covectors(alloc, &circuits), COVECTORS),
        ),
    ] {
        assert!(rt; holds, "{of} of circuits");
    }
}

/// Asserts that there are cocircuits of rank 2, and that their chirotope, circuits and covectors are those written
/// above.
fn of_cocircuits<R: Abort>(rt: &R, alloc: Global, found: Result<Cocircuits, SampleError>) {
    let cocircuits = found.expect(rt, "cocircuits");
    for (of, holds) in [
        ("rank", rank_cocircuits(&cocircuits) == 2),
        (
            "chirotope",
            is_chirotope(cocircuits_to_chirotope(alloc, &cocircuits), 2, 4, SIGNS),
        ),
        (
            "circuits",
            are_circuits(cocircuits_to_circuits(alloc, &cocircuits), CIRCUITS),
        ),
        (
            "covectors",
            are_covectors(cocircuits_to_covectors(alloc, &cocircuits), COVECTORS),
        ),
    ] {
        assert!(rt; holds, "{of} of cocircuits");
    }
}

/// Asserts that there are covectors of rank 2, and that their chirotope, circuits and cocircuits are those written
/// above.
fn of_covectors<R: Abort>(rt: &R, alloc: Global, found: Result<Covectors, SampleError>) {
    let covectors = found.expect(rt, "covectors");
    for (of, holds) in [
        ("rank", rank_covectors(&covectors) == 2),
        (
            "chirotope",
            is_chirotope(covectors_to_chirotope(alloc, &covectors), 2, 4, SIGNS),
        ),
        (
            "circuits",
            are_circuits(covectors_to_circuits(alloc, &covectors), CIRCUITS),
        ),
        (
            "cocircuits",
            are_cocircuits(covectors_to_cocircuits(alloc, &covectors), COCIRCUITS),
        ),
    ] {
        assert!(rt; holds, "{of} of covectors");
    }
}

// 1 and 3 are a basis, so the rank is 2
#[test]
fn each_of_each_other(rt: HostRuntime) {
    let alloc = rt.alloc();
    of_chirotope(&rt, alloc, chirotope_of(&rt, alloc, 2, 4, SIGNS));
    of_circuits(&rt, alloc, circuits_of(&rt, alloc, 4, &CIRCUIT_LIST));
    of_cocircuits(&rt, alloc, cocircuits_of(&rt, alloc, 4, &COCIRCUIT_LIST));
    of_covectors(&rt, alloc, covectors_of(&rt, alloc, 4, &COVECTOR_LIST));
}

/// Whether a text was made, and is this one.
fn is_printed(made: Result<String, AllocError>, text: &str) -> bool {
    match made {
        Ok(made) => made.as_str() == text,
        Err(_) => false,
    }
}

#[test]
fn errors_are_printed(rt: HostRuntime) {
    let made = ConvertError::TooMany { limit: 5 }.to_string(rt.alloc());
    assert!(rt; is_printed(made, "more than 5 members"));
}

/// Whether this error is that the negative of the first member is missing.
fn is_no_negative(error: &ReadSetError) -> bool {
    match error {
        ReadSetError::Bad(bad) => bad.why == SetRefused::NoNegative { i: 1 },
        _ => false,
    }
}

/// Whether a list was refused because the negative of its first member is missing.
fn lacks_a_negative<T: Drop>(found: Result<T, ReadSetError>) -> bool {
    match found {
        Ok(_) => false,
        Err(error) => is_no_negative(&error),
    }
}

/// Whether this error is that the zero vector is missing.
fn is_no_zero(error: &ReadCovError) -> bool {
    match error {
        ReadCovError::Bad(bad) => bad.why == CovRefused::NoZero,
        _ => false,
    }
}

/// Whether a list was refused because the zero vector is missing.
fn lacks_zero(found: Result<Covectors, ReadCovError>) -> bool {
    match found {
        Ok(_) => false,
        Err(error) => is_no_zero(&error),
    }
}

/// The result of reading some texts as a list of circuits. Running out of memory also stands for texts that spell
/// no list.
fn circuits_read<R: Threads + Sync>(
    rt: &R,
    alloc: Global,
    elements: u8,
    texts: &[&str],
) -> Result<Circuits, ReadSetError> {
    match vectors_of(alloc, elements, texts) {
        Ok(list) => read_circuits(rt, alloc, elements, list),
        Err(_) => Err(ReadSetError::Memory(List::new(alloc))),
    }
}

/// The result of reading some texts as a list of cocircuits.
fn cocircuits_read<R: Threads + Sync>(
    rt: &R,
    alloc: Global,
    elements: u8,
    texts: &[&str],
) -> Result<Cocircuits, ReadSetError> {
    match vectors_of(alloc, elements, texts) {
        Ok(list) => read_cocircuits(rt, alloc, elements, list),
        Err(_) => Err(ReadSetError::Memory(List::new(alloc))),
    }
}

/// The result of reading some texts as a list of covectors.
fn covectors_read<R: Threads + Sync>(
    rt: &R,
    alloc: Global,
    elements: u8,
    texts: &[&str],
) -> Result<Covectors, ReadCovError> {
    match vectors_of(alloc, elements, texts) {
        Ok(list) => read_covectors(rt, alloc, elements, list),
        Err(_) => Err(ReadCovError::Memory(List::new(alloc))),
    }
}

// each list has the property that it is read for, or lacks it, as its texts show
#[test]
fn lists_are_read(rt: HostRuntime) {
    let alloc = rt.alloc();
    hold(
        &rt,
        &[
            (
                "circuits",
                are_circuits(circuits_read(&rt, alloc, 3, &["++0", "--0"]), "++0 --0"),
            ),
            (
                "circuits without a negative",
                lacks_a_negative(circuits_read(&rt, alloc, 2, &["+-"])),
            ),
            (
                "cocircuits",
                are_cocircuits(cocircuits_read(&rt, alloc, 3, &["++0", "--0"]), "++0 --0"),
            ),
            (
                "cocircuits without a negative",
                lacks_a_negative(cocircuits_read(&rt, alloc, 2, &["+-"])),
            ),
            (
                "covectors",
                are_covectors(
                    covectors_read(&rt, alloc, 2, &["00", "++", "--"]),
                    "00 ++ --",
                ),
            ),
            (
                "covectors without zero",
                lacks_zero(covectors_read(&rt, alloc, 1, &["+", "-"])),
            ),
        ],
    );
}
