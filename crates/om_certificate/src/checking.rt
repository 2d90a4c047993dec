//! The checker of evidence.

ghost use Rattle.std.specs.Prelude.{◌≡◌, ◌↔◌, IsOk, IfErr, OnOk, Err};
ghost use Rattle.om_vectors.specs.Realizations.{Realizes};
ghost use Rattle.om_certificate.specs.declared.cert_refused.CertRefused.{CertRefused};
ghost use Rattle.om_certificate.specs.Validity.{IsValid, Shows, IsWithinLimits};
ghost use Rattle.om_certificate.specs.Refusals.{IsRefusal, IsVectorRefusal};

use super::balance::check_entries;
use super::cert_refused::CertRefused;
use super::evidence::Evidence;
use super::weighing::check_weights;
use om_chirotope::Chirotope;
use om_vectors::{Word, realizes};

/// Whether evidence proves what it is given for. Vectors prove that they realize the chirotope. Entries prove that
/// no integer vectors of any size do. Weights prove that no list of entries proves this.
///
/// Otherwise the error is the first reason against the evidence. `NotRank3` comes exactly if the rank isn't 3. In
/// rank 3:
///
/// - for vectors, `Number` if there isn't one for each element, and else `WrongSign` with the first triple of elements
///   whose triple product has the wrong sign;
/// - for entries, `Unlawful` with the first entry whose statement isn't lawful; else `Unbalanced` with the first
/// bracket
///   that doesn't occur equally often on small and on big sides, counted with multiplicities, and the two counts; else
///   `NoStrict` if no statement is strict;
/// - for weights, `Number` if there isn't one for each nonzero bracket; else `Bracket` with the first weight that isn't
///   given to the nonzero bracket at its place in lexicographic order; else `WeightFails` with the first lawful
///   statement that the weights don't satisfy.
///
/// Entries and weights count from 1. There are at most [`MAX_ENTRIES`](om_signs::MAX_ENTRIES) of them.
/// Multiplicities are from 1 to [`MAX_MULTIPLICITY`](om_signs::MAX_MULTIPLICITY), and the absolute value of a
/// weight is at most [`MAX_WEIGHT`](om_signs::MAX_WEIGHT). The call allocates no memory.
///
/// Source: Bokowski and Richter-Gebert, *On the finding of final polynomials*, 1990.
pub fn check(chi: &Chirotope, evidence: &Evidence) -> Result<(), CertRefused>
    requires { IsWithinLimits evidence.now }
    ensures accepted { IsOk result ↔ IsValid chi.now evidence.now }
    ensures refused { (why : CertRefused) → (result ≡ Err why) ↔ IsRefusal chi.now evidence.now why }
    ensures shown { OnOk result (Shows chi.now evidence.now) }
{
    if chi.rank() != 3 {
        return Err(CertRefused::NotRank3 { r: chi.rank() });
    }
    match evidence {
        Evidence::Vectors(word) => check_vectors(chi, word),
        Evidence::Balanced(entries) => check_entries(chi, entries.as_slice()),
        Evidence::Weights(weights) => check_weights(chi, weights.as_slice()),
    }
}

/// Whether the vectors of a word realize the chirotope.
fn check_vectors(chi: &Chirotope, word: &Word) -> Result<(), CertRefused>
    requires { chi.now.rank ≡ 3 }
    ensures accepted { OnOk result (Realizes word.now chi.now) }
    ensures refused { IfErr result (IsVectorRefusal chi.now word.now) }
{
    if word.len() != chi.elements() {
        return Err(CertRefused::Number {
            wanted: chi.elements() as u32,
            given: word.len() as u32,
        });
    }
    match realizes(word.as_slice(), chi) {
        Ok(()) => Ok(()),
        Err(triple) => Err(CertRefused::WrongSign { triple }),
    }
}
