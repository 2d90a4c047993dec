//! The texts of lines.

ghost use Rattle.std.specs.Prelude.{◌≡◌, ◌++◌, IfOk, OnOk};
ghost use Rattle.om_classification.specs.Texts.{asked_word, fault_text, gap_text, line_text, named, unfit_text};

use super::fault::Fault;
use super::line::Line;
use om_chain::{Asked, Gap, Unfit};
use om_printing::pieces::{push, push_line_feed, push_subset};
use om_printing::{print_line, push_number};
use om_reply::push_signature;
use om_signs::NoMemory;
use std::alloc::Global;

/// The number of bytes of the word `refused`.
const REFUSED: usize = 7;

/// The text of a line. Memory comes from `alloc`.
///
/// [`NoMemory`] comes only if memory runs out.
pub fn text_of(alloc: Global, line: &Line) -> Result<Vec<u8>, NoMemory>
    ensures { IfOk result (λ text. text.items ≡ line_text line.now) }
{
    let mut text = Vec::new(alloc);
    push_line(alloc, &mut text, line)?;
    Ok(text)
}

/// Appends the text of a line.
///
/// [`NoMemory`] comes only if memory runs out.
pub fn push_line(alloc: Global, text: &mut Vec<u8>, line: &Line) -> Result<(), NoMemory>
    ensures { OnOk result (text.new.items ≡ text.old.items ++ line_text line.now) }
{
    match line {
        Line::Shown {
            asked,
            elements,
            members,
        } => {
            push_named(text, word_of(*asked), u128::from(*elements))?;
            push_number(text, *members as u128)?;
            push_line_feed(text)
        }
        Line::Empty => push(text, b"refused empty\n"),
        Line::Fault { document, fault } => {
            push_named(text, b"refused document", u128::from(*document))?;
            push_fault(alloc, text, *fault)
        }
        Line::Elements { document } => {
            push_named(text, b"refused document", u128::from(*document))?;
            push(text, b" elements\n")
        }
        Line::Unfit { document, unfit } => {
            push_named(text, b"refused document", u128::from(*document))?;
            push_unfit(text, *unfit)
        }
        Line::Gap { elements, gap } => push_gap(text, *elements, gap),
    }
}

/// The word for what is shown.
fn word_of(asked: Asked) -> &'static [u8]
    ensures { result.now ≡ asked_word asked }
{
    match asked {
        Asked::Complete => b"complete",
        Asked::Exact => b"exact",
    }
}

/// Appends words and a number.
fn push_named(text: &mut Vec<u8>, words: &[u8], number: u128) -> Result<(), NoMemory>
    ensures { OnOk result (text.new.items ≡ text.old.items ++ named words.now number) }
{
    push(text, words)?;
    push_number(text, number)
}

/// Appends what is at fault with a document.
fn push_fault(alloc: Global, text: &mut Vec<u8>, fault: Fault) -> Result<(), NoMemory>
    ensures { OnOk result (text.new.items ≡ text.old.items ++ fault_text fault) }
{
    match fault {
        Fault::Long => push(text, b" long\n"),
        Fault::Line { line, code } => {
            let refusal = print_line(alloc, &om_printing::Line::RefusedLine { line, code })?;
            push(text, &refusal.as_slice()[REFUSED..])
        }
        Fault::Kind => push(text, b" kind\n"),
        Fault::Axioms => push(text, b" axioms\n"),
        Fault::Rank => push(text, b" rank\n"),
    }
}

/// Appends why a document can't be the next member.
fn push_unfit(text: &mut Vec<u8>, unfit: Unfit) -> Result<(), NoMemory>
    ensures { OnOk result (text.new.items ≡ text.old.items ++ unfit_text unfit) }
{
    match unfit {
        Unfit::Dependent { e, f } => {
            push_named(text, b" dependent", u128::from(e))?;
            push_number(text, u128::from(f))?;
            push_line_feed(text)
        }
        Unfit::Zero { set } => {
            push(text, b" zero ")?;
            push_subset(text, set)?;
            push_line_feed(text)
        }
        Unfit::Order => push(text, b" order\n"),
        Unfit::NotLeast => push(text, b" least\n"),
    }
}

/// Appends why a list on so many elements isn't shown.
fn push_gap(text: &mut Vec<u8>, elements: u8, gap: &Gap) -> Result<(), NoMemory>
    ensures { OnOk result (text.new.items ≡ text.old.items ++ gap_text elements gap.now) }
{
    match gap {
        Gap::Missing { member, signature } => {
            push_named(text, b"refused list", u128::from(elements))?;
            push_named(text, b" missing", *member as u128 + 1)?;
            push(text, b" ")?;
            push_signature(text, signature)?;
            push_line_feed(text)
        }
        Gap::Unmet { member } => {
            push_named(text, b"refused list", u128::from(elements))?;
            push_named(text, b" unmet", *member as u128 + 1)?;
            push_line_feed(text)
        }
        Gap::TooMany { member } => {
            push_named(text, b"limit list", u128::from(elements))?;
            push_named(text, b" member", *member as u128 + 1)?;
            push_line_feed(text)
        }
    }
}
