//! Printing verdicts on chirotopes.

ghost use Rattle.std.specs.Prelude.{◌≡◌, ◌≢◌, ◌≤◌, IfOk};
ghost use Rattle.om_signs.specs.declared.limits.TheConstants.{MAX_VALUES};
ghost use Rattle.om_subsets.specs.Subsets.{choose};
ghost use Rattle.om_certificate.specs.Forms.{IsVerdictInForm};
ghost use Rattle.om_lines.specs.Lines.{lines};
ghost use Rattle.om_answer.specs.Claim.{IsClaim};
ghost use Rattle.om_reply.specs.VerdictText.{verdict_text, claim_of};

use om_certificate::Verdict;
use om_chirotope::Chirotope;
use om_document::print_map;
use om_reply::push_block;
use om_signs::NoMemory;
use std::alloc::Global;

/// The text of a verdict on a chirotope: the canonical form of the chirotope's document, and then the lines of the
/// verdict block. Memory for the text comes from `alloc`. Nothing is copied.
///
/// The verdict must have the forms of a claim and be within its limits:
///
/// - there are at most as many vectors as elements are allowed;
/// - the numbers of the entries and the weights are in their ranges;
/// - the elements of a weight increase, and there are at most as many weights as sets of three elements;
/// - the numbers at the end of a tableau are in their ranges;
/// - a budget of pivots comes with at least one basis number.
///
/// The chirotope has at most [`om_signs::MAX_VALUES`] values, as many as a document may hold. One of rank 3, the
/// rank that verdicts are about, never has more. The printed text is then a claim, and [`crate::read_claim`] reads
/// this document and this verdict from it.
///
/// [`NoMemory`] comes only if memory runs out.
pub fn print_verdict(alloc: Global, chi: &Chirotope, verdict: &Verdict) -> Result<Vec<u8>, NoMemory>
    requires form { IsVerdictInForm verdict.now }
    requires few { chi.now.rank ≢ 3 → choose chi.now.elements chi.now.rank ≤ MAX_VALUES }
    ensures text { IfOk result (λ text. text.items ≡ verdict_text chi.now verdict.now) }
    // The printed text is a claim: the chirotope's document and this verdict.
    ensures claim { IfOk result (λ text. IsClaim (lines text.items) (claim_of chi.now verdict.now)) }
{
    let mut text = print_map(alloc, chi.rank(), chi.elements(), chi.signs())?;
    push_block(&mut text, verdict)?;
    Ok(text)
}
