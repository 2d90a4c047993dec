//! The text of the hull of an acyclic oriented matroid.

ghost use Rattle.std.specs.Prelude.{◌≡◌, ◌++◌, ◌∷◌, [], IfOk, OnOk};
ghost use Rattle.om_document.specs.Print.{text_of};
ghost use Rattle.om_reply.specs.HullTexts.{element_text, item_text, item_lines, hull_text};

use om_oriented::Painted;
use om_printing::pieces::{push, push_decimal, push_line_feed, push_vector};
use om_signs::{NoMemory, SignVec};
use std::alloc::Global;

/// The text of a hull: `acyclic`, a line for each element, and `end`.
pub fn print_hull(alloc: Global, items: &[Painted]) -> Result<Vec<u8>, NoMemory>
    ensures { IfOk result (λ text. text.items ≡ hull_text items.now) }
{
    let mut text = Vec::new(alloc);
    push_hull(&mut text, items)?;
    Ok(text)
}

/// Appends the text of a hull.
fn push_hull(text: &mut Vec<u8>, items: &[Painted]) -> Result<(), NoMemory>
    ensures { OnOk result (text.new.items ≡ text.old.items ++ hull_text items.now) }
{
    push(text, b"acyclic\n")?;
    push_items(text, items)?;
    push(text, b"end\n")
}

/// Appends the lines of the elements 1, 2, and so on.
fn push_items(text: &mut Vec<u8>, items: &[Painted]) -> Result<(), NoMemory>
    ensures { OnOk result (text.new.items ≡ text.old.items ++ text_of (item_lines 1 items.now)) }
{
    for (i, item) in items.iter().enumerate() {
        push_item(text, i as u128 + 1, *item)?;
    }
    Ok(())
}

/// Appends the line of an element.
fn push_item(text: &mut Vec<u8>, e: u128, item: Painted) -> Result<(), NoMemory>
    ensures { OnOk result (text.new.items ≡ text.old.items ++ (item_text e item ++ 10 ∷ [])) }
{
    match item {
        Painted::Circuit(x) => push_element(text, b"inside", e, x),
        Painted::Cocircuit(x) => push_element(text, b"extreme", e, x),
    }
}

/// Appends a line with a word, an element and a sign vector.
fn push_element(text: &mut Vec<u8>, word: &[u8], e: u128, x: SignVec) -> Result<(), NoMemory>
    ensures { OnOk result (text.new.items ≡ text.old.items ++ (element_text word.now e x ++ 10 ∷ [])) }
{
    push(text, word)?;
    push(text, b" ")?;
    push_decimal(text, e)?;
    push(text, b" ")?;
    push_vector(text, x)?;
    push_line_feed(text)
}
