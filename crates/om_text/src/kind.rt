//! The kind line.

ghost use Rattle.std.specs.Prelude.{◌≡◌, ℕ, ◌≤◌, [], IfSome, IfNone, Some, None};
ghost use Rattle.om_lines.specs.Lines.{runs};
ghost use Rattle.om_lines.specs.Words.{plain};
ghost use Rattle.om_document.specs.Heading.{kind_of, plain_numbers, sizes, numbers, headed, rank_of_body};
ghost use Rattle.om_document.specs.Heading.{values_of_body, empty_body};
ghost use Rattle.om_document.specs.declared.setting.Setting.TheVariants.{Plain};
ghost use Rattle.om_document.specs.Document.{filled_body};
ghost use Rattle.om_text.specs.Reading.{in_range, first_stage, after_kind};

use super::draft::Draft;
use super::stage::Stage;
use super::state::State;
use om_document::{Body, Code, Document, DocumentKind, Setting, Version};
use om_lines::lines::{first_word, same};
use om_lines::words::plain_number;
use om_signs::{List, MAX_ELEMENTS, MAX_VALUES, RawMap};
use om_subsets::Subset;
use smallvec::SmallVec;
use std::alloc::Global;

fn kind_of_name(word: &[u8]) -> Option<DocumentKind>
    ensures { result ≡ kind_of word.now }
{
    if same(word, b"chirotope") {
        Some(DocumentKind::Chirotope)
    } else if same(word, b"circuits") {
        Some(DocumentKind::Circuits)
    } else if same(word, b"cocircuits") {
        Some(DocumentKind::Cocircuits)
    } else if same(word, b"covectors") {
        Some(DocumentKind::Covectors)
    } else if same(word, b"wiring") {
        Some(DocumentKind::Wiring)
    } else if same(word, b"points") {
        Some(DocumentKind::Points)
    } else {
        None
    }
}

/// The most numbers of a kind line that are read.
const MOST_NUMBERS: usize = 16;

/// The plain numbers that the words of a line spell. A line with more than `MOST_NUMBERS` words is no kind line.
fn numbers_of(alloc: Global, line: &[u8]) -> Option<SmallVec<u32, MOST_NUMBERS>>
    ensures some { IfSome result (λ v. plain_numbers (runs line.now) ≡ Some v.items) }
    ensures none { IfNone result ((kind : DocumentKind) → numbers kind (runs line.now) ≡ None) }
{
    let mut numbers = SmallVec::new(alloc);
    let mut rest = line;
    while let Some((word, after)) = first_word(rest) {
        if numbers.len() == MOST_NUMBERS {
            return None;
        }
        numbers.push_reserved(plain_number(word)?);
        rest = after;
    }
    Some(numbers)
}

/// The rank and the number of elements, if a kind line of this kind has these numbers.
fn sizes_of(kind: DocumentKind, numbers: &[u32]) -> Option<(u32, u32)>
    ensures { result ≡ sizes kind numbers.now }
{
    match (kind, numbers) {
        (DocumentKind::Chirotope, [rank, elements]) => Some((*rank, *elements)),
        (
            DocumentKind::Circuits
            | DocumentKind::Cocircuits
            | DocumentKind::Covectors
            | DocumentKind::Wiring
            | DocumentKind::Points,
            [elements],
        ) => Some((0, *elements)),
        _ => None,
    }
}

/// The rank and the number of elements that the words after the kind's name give.
fn sizes_in(alloc: Global, kind: DocumentKind, line: &[u8]) -> Option<(u32, u32)>
    ensures { result ≡ numbers kind (runs line.now) }
{
    let numbers = numbers_of(alloc, line)?;
    sizes_of(kind, numbers.as_slice())
}

fn empty_body(alloc: Global, kind: DocumentKind, rank: u8, elements: u8) -> Body
    ensures { result ≡ filled_body Plain (empty_body kind rank elements) [] }
{
    match kind {
        DocumentKind::Chirotope => Body::Chirotope(RawMap {
            rank,
            elements,
            signs: List::new(alloc),
        }),
        DocumentKind::Circuits => Body::Circuits(List::new(alloc)),
        DocumentKind::Cocircuits => Body::Cocircuits(List::new(alloc)),
        DocumentKind::Covectors => Body::Covectors(List::new(alloc)),
        DocumentKind::Wiring => Body::Wiring(List::new(alloc)),
        DocumentKind::Points => Body::Points(List::new(alloc)),
    }
}

/// The rank that a kind line gives; only a map has one.
fn rank_given(kind: DocumentKind, rank: u32) -> u32
    ensures { (n : ℕ) → result ≡ rank_of_body (empty_body kind rank n) }
{
    match kind {
        DocumentKind::Chirotope => rank,
        DocumentKind::Circuits
        | DocumentKind::Cocircuits
        | DocumentKind::Covectors
        | DocumentKind::Wiring
        | DocumentKind::Points => 0,
    }
}

/// The number of values that a kind line gives; only a map has values.
fn values_given(kind: DocumentKind, rank: u8, elements: u8) -> u32
    requires { elements ≤ MAX_ELEMENTS }
    ensures { result ≡ values_of_body (empty_body kind rank elements) }
{
    match kind {
        DocumentKind::Chirotope => Subset::choose(elements, rank),
        DocumentKind::Circuits
        | DocumentKind::Cocircuits
        | DocumentKind::Covectors
        | DocumentKind::Wiring
        | DocumentKind::Points => 0,
    }
}

/// Which setting lines may come after the kind line.
fn first_stage(version: Version) -> Stage
    ensures { result ≡ first_stage version }
{
    match version {
        Version::One => Stage::Body,
        Version::Two => Stage::Names,
    }
}

fn open(
    alloc: Global,
    version: Version,
    kind: DocumentKind,
    given: u32,
    elements: u32,
) -> Result<State, Code>
    ensures { result ≡ in_range version (headed kind (given, elements)) }
{
    if elements < 1 || u32::from(MAX_ELEMENTS) < elements {
        return Err(Code::Elements { n: elements });
    }
    let rank = rank_given(kind, given);
    if elements < rank {
        return Err(Code::Rank { r: rank });
    }
    let values = values_given(kind, rank as u8, elements as u8);
    if MAX_VALUES < values {
        return Err(Code::Size { values });
    }
    Ok(State::Open(Draft {
        document: Document {
            elements: elements as u8,
            body: empty_body(alloc, kind, rank as u8, elements as u8),
            names: List::new(alloc),
        },
        setting: Setting::Plain,
        stage: first_stage(version),
    }))
}

/// The state after a kind line.
pub fn kind_line(alloc: Global, version: Version, line: &[u8]) -> Result<State, Code>
    ensures { result ≡ after_kind version (runs line.now) }
{
    let Some((name, rest)) = first_word(line) else {
        return Err(Code::Kind);
    };
    let Some(kind) = kind_of_name(name) else {
        return Err(Code::Kind);
    };
    let Some((rank, elements)) = sizes_in(alloc, kind, rest) else {
        return Err(Code::Header);
    };
    open(alloc, version, kind, rank, elements)
}
