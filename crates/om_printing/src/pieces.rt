//! Pieces of texts. Each call appends one piece to a text. A call returns [`NoMemory`] only if memory runs out, and
//! the text is then unchanged.

ghost use Rattle.std.specs.Prelude.{◌≡◌, ◌++◌, ◌∷◌, [], OnOk, OnErr, map};
ghost use Rattle.std.specs.Io.{StartsWith};
ghost use Rattle.std.specs.List.{join_with_byte};
ghost use Rattle.std.specs.Fmt.{decimal};
ghost use Rattle.om_printing.specs.Texts.{after_comma, signs_text, subset_text};

use itoa::Buffer;
use om_document::push_signs;
use om_signs::{NoMemory, SignVec};
use om_subsets::Subset;

/// Appends a word, or any other bytes.
pub fn push(text: &mut Vec<u8>, word: &[u8]) -> Result<(), NoMemory>
    ensures ok { OnOk result (text.new.items ≡ text.old.items ++ word.now) }
    ensures err { OnErr result (text.new.items ≡ text.old.items) }
{
    text.extend_from_slice(word)?;
    Ok(())
}

/// Appends a line feed.
pub fn push_line_feed(text: &mut Vec<u8>) -> Result<(), NoMemory>
    ensures ok { OnOk result (text.new.items ≡ text.old.items ++ 10 ∷ []) }
    ensures err { OnErr result (text.new.items ≡ text.old.items) }
{
    push(text, b"\n")
}

/// Appends the decimal digits of a number.
pub fn push_decimal(text: &mut Vec<u8>, n: u128) -> Result<(), NoMemory>
    ensures ok { OnOk result (text.new.items ≡ text.old.items ++ decimal n) }
    ensures err { OnErr result (text.new.items ≡ text.old.items) }
{
    let mut buffer = Buffer::new();
    push(text, buffer.format(n).as_bytes())
}

/// Appends the elements of a subset, joined by commas, or `none` for the empty one.
pub fn push_subset(text: &mut Vec<u8>, subset: Subset) -> Result<(), NoMemory>
    ensures ok { OnOk result (text.new.items ≡ text.old.items ++ subset_text subset.elements) }
    ensures err { OnErr result (text.new.items ≡ text.old.items) }
{
    if subset.size() == 0 {
        return push(text, b"none");
    }
    let before = text.len();
    let pushed = push_elements(text, subset);
    if pushed.is_err() {
        text.truncate(before);
    }
    pushed
}

/// Appends the elements of a subset, joined by commas. If memory runs out, some of them may have been appended.
fn push_elements(text: &mut Vec<u8>, subset: Subset) -> Result<(), NoMemory>
    ensures ok { OnOk result (text.new.items ≡ text.old.items ++ join_with_byte 44 (map decimal subset.elements)) }
    ensures kept { StartsWith text.new.items text.old.items }
{
    let mut before = 0u8;
    for e in 1..subset.n() + 1 {
        if subset.has(e) {
            push_element(text, before, e)?;
            before += 1;
        }
    }
    Ok(())
}

/// Appends an element, after a comma if others come before it. If memory runs out, the comma may have been
/// appended.
fn push_element(text: &mut Vec<u8>, before: u8, e: u8) -> Result<(), NoMemory>
    ensures ok { OnOk result (text.new.items ≡ text.old.items ++ after_comma before (decimal e)) }
    ensures kept { StartsWith text.new.items text.old.items }
{
    if before > 0 {
        push(text, b",")?;
    }
    push_decimal(text, u128::from(e))
}

/// Appends the signs of a sign vector, in the order of the elements: `-`, `0` or `+` for each.
pub fn push_vector(text: &mut Vec<u8>, vector: SignVec) -> Result<(), NoMemory>
    ensures ok { OnOk result (text.new.items ≡ text.old.items ++ signs_text vector) }
    ensures err { OnErr result (text.new.items ≡ text.old.items) }
{
    let before = text.len();
    let pushed = push_signs(text, vector);
    if pushed.is_err() {
        text.truncate(before);
    }
    pushed
}
