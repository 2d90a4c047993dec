//! The texts of one-line answers.

ghost use Rattle.std.specs.Prelude.{◌≡◌, ◌++◌, IfOk};
ghost use Rattle.om_printing.specs.Texts.{ended, line_name, line_text};

use super::field::Field::{self, Code, Large, Number, Set, Signs, Small, Statement};
use super::fields::push_field;
use super::line::Line;
use super::pieces::{push, push_line_feed};
use om_signs::NoMemory;
use std::alloc::Global;

/// A name and then fields, each after a space, with a line feed at the end.
fn text_of(alloc: Global, name: &str, fields: &[Field]) -> Result<Vec<u8>, NoMemory>
    ensures { IfOk result (λ text. text.items ≡ name.now ++ ended fields.now) }
{
    let mut text = Vec::new(alloc);
    push(&mut text, name.as_bytes())?;
    for field in fields {
        push_field(&mut text, field)?;
    }
    push_line_feed(&mut text)?;
    Ok(text)
}

/// The words of a line's name in lower case.
fn name_of(line: &Line) -> &'static str
    ensures { result.now ≡ line_name line.now }
{
    match line {
        Line::Accepted => "accepted",
        Line::Covector => "covector",
        Line::NotCovector => "not covector",
        Line::ValidRealizable => "valid realizable",
        Line::ValidNonrealizable => "valid nonrealizable",
        Line::ValidUndecided => "valid undecided",
        Line::Circuit { .. } => "circuit",
        Line::Cocircuit { .. } => "cocircuit",
        Line::Cyclic { .. } => "cyclic",
        Line::Usage { .. } => "usage",
        Line::LimitMembers { .. } => "limit members",
        Line::LimitValues { .. } => "limit values",
        Line::RefusedLong => "refused long",
        Line::RefusedLine { .. } => "refused line",
        Line::RefusedAllzero => "refused allzero",
        Line::RefusedRelation { .. } => "refused relation",
        Line::RefusedZero { .. } => "refused zero",
        Line::RefusedNonegative { .. } => "refused nonegative",
        Line::RefusedNested { .. } => "refused nested",
        Line::RefusedNoelimination { .. } => "refused noelimination",
        Line::RefusedNozero => "refused nozero",
        Line::RefusedNocomposition { .. } => "refused nocomposition",
        Line::RefusedRange { .. } => "refused range",
        Line::RefusedNotincreasing { .. } => "refused notincreasing",
        Line::RefusedNotreversed => "refused notreversed",
        Line::RefusedRanklow => "refused ranklow",
        Line::RefusedFlatrank => "refused flatrank",
        Line::RefusedLength { .. } => "refused length",
        Line::RefusedPlace { .. } => "refused place",
        Line::RefusedLastelement => "refused lastelement",
        Line::RefusedNotrank3 { .. } => "refused notrank3",
        Line::RefusedFull { .. } => "refused full",
        Line::RefusedNotbasis => "refused notbasis",
        Line::RefusedNotsweepable { .. } => "refused notsweepable",
        Line::RefusedNotmutation { .. } => "refused notmutation",
        Line::RefusedColour { .. } => "refused colour",
        Line::RefusedNotmap => "refused notmap",
        Line::RefusedNoexchange { .. } => "refused noexchange",
        Line::RefusedThreeterm { .. } => "refused threeterm",
        Line::RefusedNocertificate => "refused nocertificate",
        Line::RefusedNumber { .. } => "refused number",
        Line::RefusedWrongsign { .. } => "refused wrongsign",
        Line::RefusedUnlawful { .. } => "refused unlawful",
        Line::RefusedUnbalanced { .. } => "refused unbalanced",
        Line::RefusedNostrict => "refused nostrict",
        Line::RefusedBracket { .. } => "refused bracket",
        Line::RefusedWeightfails { .. } => "refused weightfails",
    }
}

/// The text of a line: the words of its name in lower case, then its fields, with single spaces, and a line feed.
/// Memory for the text comes from `alloc`.
///
/// [`NoMemory`] comes only if memory runs out.
pub fn print_line(alloc: Global, line: &Line) -> Result<Vec<u8>, NoMemory>
    ensures { IfOk result (λ text. text.items ≡ line_text line.now) }
{
    let name = name_of(line);
    match line {
        Line::Circuit { x } | Line::Cocircuit { x } | Line::Cyclic { x } => text_of(
            alloc,
            name,
            &[Signs(*x)],
        ),
        Line::Usage { word: n }
        | Line::LimitMembers { limit: n }
        | Line::LimitValues { values: n }
        | Line::RefusedZero { i: n }
        | Line::RefusedNonegative { i: n }
        | Line::RefusedRange { step: n }
        | Line::RefusedNotincreasing { step: n }
        | Line::RefusedLength { given: n }
        | Line::RefusedUnlawful { entry: n }
        | Line::RefusedBracket { entry: n } => text_of(alloc, name, &[Number(*n)]),
        Line::RefusedLine { line, code } => text_of(alloc, name, &[Number(*line), Code(*code)]),
        Line::RefusedNested { i, j }
        | Line::RefusedNocomposition { i, j }
        | Line::RefusedNumber {
            wanted: i,
            given: j,
        } => text_of(alloc, name, &[Number(*i), Number(*j)]),
        Line::RefusedNoelimination { i, j, e } => text_of(
            alloc,
            name,
            &[Number(*i), Number(*j), Small(*e)],
        ),
        Line::RefusedPlace { e: n }
        | Line::RefusedNotrank3 { r: n }
        | Line::RefusedFull { n }
        | Line::RefusedColour { e: n } => text_of(alloc, name, &[Small(*n)]),
        Line::RefusedRelation { s, a }
        | Line::RefusedNotsweepable { s, a }
        | Line::RefusedNotmutation { s, a }
        | Line::RefusedThreeterm { p: s, q: a } => text_of(alloc, name, &[Set(*s), Set(*a)]),
        Line::RefusedNoexchange { b, c, e } => text_of(alloc, name, &[Set(*b), Set(*c), Small(*e)]),
        Line::RefusedWrongsign { triple } => text_of(alloc, name, &[Set(*triple)]),
        Line::RefusedUnbalanced {
            bracket,
            small,
            big,
        } => text_of(alloc, name, &[Set(*bracket), Large(*small), Large(*big)]),
        Line::RefusedWeightfails { statement } => text_of(alloc, name, &[Statement(*statement)]),
        Line::Accepted
        | Line::Covector
        | Line::NotCovector
        | Line::ValidRealizable
        | Line::ValidNonrealizable
        | Line::ValidUndecided
        | Line::RefusedLong
        | Line::RefusedAllzero
        | Line::RefusedNozero
        | Line::RefusedNotreversed
        | Line::RefusedRanklow
        | Line::RefusedFlatrank
        | Line::RefusedLastelement
        | Line::RefusedNotbasis
        | Line::RefusedNotmap
        | Line::RefusedNocertificate
        | Line::RefusedNostrict => text_of(alloc, name, &[]),
    }
}
