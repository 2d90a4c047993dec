//! The text of a list of mutations.

ghost use Rattle.std.specs.Prelude.{◌≡◌, ◌++◌, IfOk, OnOk};
ghost use Rattle.om_document.specs.Print.{text_of};
ghost use Rattle.om_reply.specs.MutationTexts.{set_lines, mutations_text};

use om_printing::pieces::{push, push_decimal, push_line_feed, push_subset};
use om_signs::NoMemory;
use om_subsets::Subset;
use std::alloc::Global;

/// The text of a list of mutations: a line with their number, a line for each, and `end`.
pub fn print_mutations(alloc: Global, sets: &[Subset]) -> Result<Vec<u8>, NoMemory>
    ensures { IfOk result (λ text. text.items ≡ mutations_text sets.now) }
{
    let mut text = Vec::new(alloc);
    push_mutations(&mut text, sets)?;
    Ok(text)
}

/// Appends the text of a list of mutations.
fn push_mutations(text: &mut Vec<u8>, sets: &[Subset]) -> Result<(), NoMemory>
    ensures { OnOk result (text.new.items ≡ text.old.items ++ mutations_text sets.now) }
{
    push(text, b"mutations ")?;
    push_decimal(text, sets.len() as u128)?;
    push_line_feed(text)?;
    push_sets(text, sets)?;
    push(text, b"end\n")
}

/// Appends sets, one on each line.
fn push_sets(text: &mut Vec<u8>, sets: &[Subset]) -> Result<(), NoMemory>
    ensures { OnOk result (text.new.items ≡ text.old.items ++ text_of (set_lines sets.now)) }
{
    for set in sets {
        push_subset(text, *set)?;
        push_line_feed(text)?;
    }
    Ok(())
}
