//! Reads a claim: a document followed by a verdict block.

ghost use Rattle.std.specs.Prelude.{◌≡◌, ℕ, ◌*◌, ◌+◌, ◌-◌, ◌≤◌, ◌^◌, length, IfOk};
ghost use Rattle.om_signs.specs.declared.limits.TheConstants.{MAX_INPUT, MAX_READ};
ghost use Rattle.om_certificate.specs.Forms.{IsVerdictInForm};
ghost use Rattle.om_document.specs.declared.code.Code.{Code};
ghost use Rattle.om_lines.specs.Lines.{lines};
ghost use Rattle.om_text.specs.Parsed.{IsAnswerUnlessMemory, IfLine};
ghost use Rattle.om_document.specs.Form.{IsInForm};
ghost use Rattle.om_reply.specs.declared.claim.Claim.{Claim};
ghost use Rattle.om_answer.specs.Claim.{IsClaim};
ghost use Rattle.om_certificate.specs.Verdicts.{HasEvidenceWithinLimits};
ghost use Rattle.om_answer.specs.ClaimFault.{IsClaimFault};

use super::block_reader::read_block;
use om_reply::Claim;
use om_text::{ParseError, parse_part};
use std::alloc::Global;

/// Reads a claim: a document, followed by a verdict block about its chirotope. There are at most
/// [`MAX_READ`](om_signs::MAX_READ) bytes.
///
/// After the document's line `end` comes a line with one of the words `realizable`, `nonrealizable`, `undecided`
/// and `limit`. Then come the lines of this verdict, and `end`. Only blank lines may follow. The forms of these
/// lines and the ranges of their numbers are in `docs/FORMATS.md`, "Claims", and in `specs/BlockLines.antt`. Which
/// lines a verdict has is in `specs/Block.antt`.
///
/// # Errors
///
/// [`ParseError::Line`] exactly if the bytes are no claim within the limits. Its `line` is the first at which no
/// claim can continue, and it has its code. The end of the input counts as the line after the last one.
/// [`ParseError::Memory`] if memory ran out.
pub fn read_claim(alloc: Global, bytes: &[u8]) -> Result<Claim, ParseError>
    requires { length bytes.now ≤ MAX_READ }
    // If a claim is read, the bytes are this claim.
    ensures claim { IfOk result (λ c. IsClaim (lines bytes.now) c) }
    // Its document has the forms of documents, within the limits.
    ensures form { IfOk result (λ c. IsInForm c.document) }
    // Its verdict has the forms of verdicts, so that it can be printed again.
    ensures verdict { IfOk result (λ c. IsVerdictInForm c.verdict) }
    // If the input isn't too long, its evidence is within the limits of the checker.
    ensures evidence { length bytes.now ≤ MAX_INPUT → IfOk result (λ c. HasEvidenceWithinLimits c.verdict) }
    // A claim is read, unless memory runs out.
    ensures every { (c : Claim) → IsClaim (lines bytes.now) c → IsAnswerUnlessMemory result (Ok c) }
    // The line that is returned is the first at fault, with its code.
    ensures fault { IfLine result (IsClaimFault (lines bytes.now)) }
    // A fault is returned, unless memory runs out.
    ensures first { (line : ℕ) (code : Code) → IsClaimFault (lines bytes.now) line code
        → IsAnswerUnlessMemory result (Err (line, code)) }
{
    let (document, len, line) = parse_part(alloc, bytes)?;
    let verdict = read_block(alloc, &bytes[len..], line)?;
    Ok(Claim { document, verdict })
}
