//! Whether the evidence of a claim proves its verdict.

ghost use Rattle.std.specs.Prelude.{◌≡◌, IfOk};
ghost use Rattle.om_document.specs.Form.{IsInForm};
ghost use Rattle.om_certificate.specs.Validity.{IsWithinLimits};
ghost use Rattle.om_certificate.specs.Verdicts.{HasEvidenceWithinLimits};
ghost use Rattle.om_representation.specs.Axioms.{IsRefusal};
ghost use Rattle.om_plane.specs.Claims.{ClaimMeans, VerdictMeans, EvidenceMeans, valid_line, refusal_line};

use om_certificate::{CertRefused, Evidence, Verdict, certificate, check};
use om_chirotope::Chirotope;
use om_printing::Line;
use om_reply::Claim;
use om_representation::{Unrepresented, choose_chirotope, rank_line, refused_line, represent};
use om_signs::NoMemory;
use std::alloc::Global;
use std::thread::Threads;

/// The line that answers a claim.
pub fn verify<R: Threads + Sync>(rt: &R, alloc: Global, claim: Claim) -> Result<Line, NoMemory>
    requires form { IsInForm claim.document }
    requires evidence { HasEvidenceWithinLimits claim.verdict }
    ensures { IfOk result (ClaimMeans claim) }
{
    let Claim { document, verdict } = claim;
    match represent(rt, alloc, document) {
        Ok(representation) => match choose_chirotope(alloc, representation) {
            Ok(chirotope) => Ok(verify_verdict(&chirotope, verdict)),
            Err(why) => rank_line(why),
        },
        Err(why) => unrepresented_line(why),
    }
}

/// The line that answers a claim whose document gives no oriented matroid. If memory ran out there is no answer.
fn unrepresented_line(why: Unrepresented) -> Result<Line, NoMemory>
    ensures { (claim : Claim) → IsRefusal claim.document.elements claim.document.body why
        → IfOk result (ClaimMeans claim) }
{
    match why {
        Unrepresented::Refused(why) => Ok(refused_line(why)),
        Unrepresented::Flat => Ok(Line::RefusedFlatrank),
        Unrepresented::Memory => Err(NoMemory),
    }
}

/// The line that answers a verdict on a chirotope.
fn verify_verdict(chirotope: &Chirotope, verdict: Verdict) -> Line
    requires { HasEvidenceWithinLimits verdict }
    ensures { VerdictMeans chirotope.now verdict result }
{
    let r = chirotope.rank();
    if r != 3 {
        return Line::RefusedNotrank3 { r };
    }
    match certificate(verdict) {
        Ok(evidence) => verify_evidence(chirotope, &evidence),
        // the verdict is given back exactly if it is a limit
        Err(_) => Line::RefusedNocertificate,
    }
}

/// The line that answers evidence on a chirotope.
fn verify_evidence(chirotope: &Chirotope, evidence: &Evidence) -> Line
    requires { IsWithinLimits evidence.now }
    ensures { EvidenceMeans chirotope.now evidence.now result }
{
    match check(chirotope, evidence) {
        Ok(()) => valid_line(evidence),
        Err(why) => refusal_line(why),
    }
}

/// The line that says what valid evidence proves.
fn valid_line(evidence: &Evidence) -> Line
    ensures { result ≡ valid_line evidence.now }
{
    match evidence {
        Evidence::Vectors(_) => Line::ValidRealizable,
        Evidence::Balanced(_) => Line::ValidNonrealizable,
        Evidence::Weights(_) => Line::ValidUndecided,
    }
}

/// The line that says why evidence proves nothing.
fn refusal_line(why: CertRefused) -> Line
    ensures { result ≡ refusal_line why }
{
    match why {
        CertRefused::NotRank3 { r } => Line::RefusedNotrank3 { r },
        CertRefused::Number { wanted, given } => Line::RefusedNumber { wanted, given },
        CertRefused::WrongSign { triple } => Line::RefusedWrongsign { triple },
        CertRefused::Unlawful { entry } => Line::RefusedUnlawful { entry },
        CertRefused::Unbalanced {
            bracket,
            small,
            big,
        } => Line::RefusedUnbalanced {
            bracket,
            small,
            big,
        },
        CertRefused::NoStrict => Line::RefusedNostrict,
        CertRefused::Bracket { entry } => Line::RefusedBracket { entry },
        CertRefused::WeightFails { statement } => Line::RefusedWeightfails { statement },
    }
}
