//! The text of a list of extensions.

ghost use Rattle.std.specs.Prelude.{◌≡◌, ◌++◌, ◌∷◌, [], IfOk, OnOk};
ghost use Rattle.om_document.specs.Print.{text_of};
ghost use Rattle.om_printing.specs.Texts.{signs_text};
ghost use Rattle.om_reply.specs.ExtensionTexts.{signature_lines, last_word, extensions_text};

use om_lines::words::byte_of_sign;
use om_localize::{Listing, Signature};
use om_printing::pieces::{push, push_decimal, push_line_feed};
use om_signs::NoMemory;
use std::alloc::Global;

/// The text of a list of extensions of a map on `elements` elements: two lines that say what it is, and a line for
/// each signature. The last line is `end`, or `more` if a further signature exists.
pub fn print_extensions(alloc: Global, elements: u8, listing: &Listing) -> Result<Vec<u8>, NoMemory>
    ensures { IfOk result (λ text. text.items ≡ extensions_text elements listing.now) }
{
    let mut text = Vec::new(alloc);
    push_extensions(&mut text, elements, listing)?;
    Ok(text)
}

/// Appends the text of a list of extensions.
fn push_extensions(text: &mut Vec<u8>, elements: u8, listing: &Listing) -> Result<(), NoMemory>
    ensures { OnOk result (text.new.items ≡ text.old.items ++ extensions_text elements listing.now) }
{
    push(text, b"om 1\nextensions ")?;
    push_decimal(text, u128::from(elements))?;
    push_line_feed(text)?;
    push_signatures(text, listing.lines.as_slice())?;
    push(text, last_word(listing.more))?;
    push_line_feed(text)
}

/// The last word of a list: `more` if a further signature exists, and else `end`.
fn last_word(more: bool) -> &'static [u8]
    ensures { result.now ≡ last_word more }
{
    if more { b"more" } else { b"end" }
}

/// Appends signatures, one on each line.
fn push_signatures(text: &mut Vec<u8>, signatures: &[Signature]) -> Result<(), NoMemory>
    ensures { OnOk result (text.new.items ≡ text.old.items ++ text_of (signature_lines signatures.now)) }
{
    for signature in signatures {
        push_signature_line(text, signature)?;
    }
    Ok(())
}

/// Appends a signature and a line feed.
fn push_signature_line(text: &mut Vec<u8>, signature: &Signature) -> Result<(), NoMemory>
    ensures { OnOk result (text.new.items ≡ text.old.items ++ (signs_text signature.now ++ 10 ∷ [])) }
{
    push_signature(text, signature)?;
    push_line_feed(text)
}

/// Appends the signs of a signature, in its order: `-`, `0` or `+` for each. If memory runs out, some of them may have
/// been appended.
pub fn push_signature(text: &mut Vec<u8>, signature: &Signature) -> Result<(), NoMemory>
    ensures { OnOk result (text.new.items ≡ text.old.items ++ signs_text signature.now) }
{
    for k in 0..signature.len() {
        text.push(byte_of_sign(signature.at(k)))?;
    }
    Ok(())
}
