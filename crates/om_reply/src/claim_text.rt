//! Printing claims.

ghost use Rattle.std.specs.Prelude.{◌≡◌, IfOk};
ghost use Rattle.om_certificate.specs.Forms.{IsVerdictInForm};
ghost use Rattle.om_document.specs.Form.{IsInForm};
ghost use Rattle.om_reply.specs.VerdictText.{claim_text};

use super::claim::Claim;
use super::verdict_lines::push_block;
use om_document::print;
use om_signs::NoMemory;
use std::alloc::Global;

/// The text of a claim: the canonical form of its document, and then the lines of the verdict block. Nothing is copied.
///
/// The document is in form, and the verdict has the forms and is within the limits of a claim. [`NoMemory`] comes only
/// for want of memory.
pub fn print_claim(alloc: Global, claim: &Claim) -> Result<Vec<u8>, NoMemory>
    requires document { IsInForm claim.now.document }
    requires verdict { IsVerdictInForm claim.now.verdict }
    ensures { IfOk result (λ text. text.items ≡ claim_text claim.now) }
{
    let mut text = print(alloc, &claim.document)?;
    push_block(&mut text, &claim.verdict)?;
    Ok(text)
}
