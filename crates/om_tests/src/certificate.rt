//! What no claim can show: evidence on a rank other than 3, a weight whose elements are out of order, and the
//! evidence of each kind of verdict. Valid evidence, and each other reason to refuse it, are rows of `check`.

ghost use Rattle.om_certificate.specs.Validity.{IsWithinLimits};

use super::helpers::hold;
use super::maps::word_of;
use om_certificate::{CertRefused, Evidence, LpEnd, Verdict, Weight, certificate, check};
use om_chirotope::Chirotope;
use om_samples::{SampleError, chirotope_of};
use om_signs::List;
use om_vectors::Unfound;
use std::alloc::Global;

/// Three unit vectors and a fourth, such that the signs are `++++`.
const FOUR: [[i64; 3]; 4] = [[1, 0, 0], [0, 1, 0], [0, 0, 1], [1, -1, 1]];

/// Whether an answer is a refusal for this reason.
fn is_refusal(answer: Result<(), CertRefused>, why: CertRefused) -> bool {
    match answer {
        Ok(()) => false,
        Err(found) => found == why,
    }
}

/// Whether there is a chirotope for which evidence is refused for this reason.
fn is_refused(chi: Result<Chirotope, SampleError>, evidence: Evidence, why: CertRefused) -> bool
    requires { IsWithinLimits evidence }
{
    match chi {
        Ok(chi) => is_refusal(check(&chi, &evidence), why),
        Err(_) => false,
    }
}

/// The weight 1 of the elements 1, 3 and 2, in this order. If memory runs out there are no weights.
fn unordered(alloc: Global) -> Evidence
    ensures { IsWithinLimits result }
{
    let mut list = List::new(alloc);
    let weight = Weight {
        a: 1,
        b: 3,
        c: 2,
        value: 1,
    };
    match list.push(weight) {
        Ok(()) => Evidence::Weights(list),
        Err(_) => Evidence::Weights(List::new(alloc)),
    }
}

// on three elements the only bracket is 123
#[test]
fn refusals(rt: HostRuntime) {
    let alloc = rt.alloc();
    hold(
        &rt,
        &[
            (
                "rank 2",
                is_refused(
                    chirotope_of(&rt, alloc, 2, 4, "++++++"),
                    Evidence::Vectors(word_of(&FOUR)),
                    CertRefused::NotRank3 { r: 2 },
                ),
            ),
            (
                "a bracket out of order",
                is_refused(
                    chirotope_of(&rt, alloc, 3, 3, "+"),
                    unordered(alloc),
                    CertRefused::Bracket { entry: 1 },
                ),
            ),
        ],
    );
}

/// The kind of some evidence: 1 for vectors, 2 for entries, 3 for weights, and 4 for a verdict handed back.
fn kind(evidence: &Result<Evidence, Verdict>) -> u8 {
    match evidence {
        Ok(Evidence::Vectors(_)) => 1,
        Ok(Evidence::Balanced(_)) => 2,
        Ok(Evidence::Weights(_)) => 3,
        Err(_) => 4,
    }
}

/// The kind of the evidence of a verdict.
fn kind_of(verdict: Verdict) -> u8 {
    kind(&certificate(verdict))
}

#[test]
fn verdicts(rt: HostRuntime) {
    let alloc = rt.alloc();
    let end = LpEnd::Pivots {
        count: 1,
        basis: List::new(alloc),
    };
    let found = [
        kind_of(Verdict::Realizable(word_of(&FOUR))),
        kind_of(Verdict::Nonrealizable(List::new(alloc))),
        kind_of(Verdict::Undecided(List::new(alloc), Unfound::Exhausted)),
        kind_of(Verdict::Limit(end, Unfound::Exhausted)),
    ];
    assert!(rt; found == [1, 2, 3, 4]);
}
