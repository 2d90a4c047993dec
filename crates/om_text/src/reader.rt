//! Reading documents line by line.

ghost use Rattle.std.specs.Prelude.{◌≡◌, ◌≢◌, ℕ, ◌+◌, ◌<◌, ◌≤◌, ◌-◌, length, true, false, IfOk, IfErr};
ghost use Rattle.om_signs.specs.declared.limits.TheConstants.{MAX_READ};
ghost use Rattle.om_document.specs.declared.document.Document.{Document};
ghost use Rattle.om_document.specs.declared.code.Code.{Code};
ghost use Rattle.om_lines.specs.Lines.{lines};
ghost use Rattle.om_document.specs.Document.{IsDocument};
ghost use Rattle.om_document.specs.Form.{IsInForm};
ghost use Rattle.om_text.specs.Fault.{IsFault};
ghost use Rattle.om_text.specs.Reading.{advance, is_closed, outcome};
ghost use Rattle.om_text.specs.ReaderParts.{fault_at, IsOutcomeOfAllLines, IsDocumentAtFrontOrFault};
ghost use Rattle.om_text.specs.Part.{IsDocumentAtFront};
ghost use Rattle.om_text.specs.Parsed.{IsAnswerUnlessMemory, IfLine};

use super::parse_error::ParseError;
use super::refusal::Refusal;
use super::state::State;
use super::stepping::advance;
use om_document::{Code, Document};
use om_lines::lines::{first_line, same};
use std::alloc::Global;

fn at_line(refusal: Refusal, line: u32) -> ParseError
    ensures { result ≡ fault_at line refusal }
{
    match refusal {
        Refusal::Memory => ParseError::Memory,
        Refusal::Line(code) => ParseError::Line { line, code },
    }
}

/// The state to continue with, or as an error the document, if reading stops after its line `end`.
fn unless_over(state: State, stops: bool) -> Result<State, Document>
    ensures same { IfOk result (λ s. s ≡ state) }
    ensures unclosed { stops ≡ true → IfOk result (λ s. is_closed s ≡ false) }
    ensures over { IfErr result (λ d. (stops ≡ true) × (state ≡ State.Closed d)) }
{
    if !stops {
        return Ok(state);
    }
    match state {
        State::Closed(document) => Err(document),
        State::Start => Ok(State::Start),
        State::Versioned(version) => Ok(State::Versioned(version)),
        State::Open(draft) => Ok(State::Open(draft)),
    }
}

/// What the bytes spell: a document with the number of bytes and of lines that were read, or the first line at
/// fault. Reading continues to the end of the bytes, or stops after the line `end`.
fn course(alloc: Global, bytes: &[u8], stops: bool) -> Result<(Document, usize, u32), ParseError>
    requires { length bytes.now ≤ MAX_READ }
    ensures whole { stops ≡ false → IsOutcomeOfAllLines bytes.now result }
    ensures front { stops ≡ true → IsDocumentAtFrontOrFault bytes.now result }
{
    let mut rest = bytes;
    let mut line = 0u32;
    let mut state = State::Start;
    while !rest.is_empty() {
        let (first, after) = first_line(rest);
        rest = after;
        line += 1;
        let next = match advance(alloc, state, first) {
            Ok(next) => next,
            Err(refusal) => return Err(at_line(refusal, line)),
        };
        state = match unless_over(next, stops) {
            Ok(open) => open,
            Err(document) => return Ok((document, bytes.len() - rest.len(), line)),
        };
    }
    match state {
        State::Closed(document) => Ok((document, bytes.len(), line)),
        _ => Err(ParseError::Line {
            line: line + 1,
            code: Code::Missing,
        }),
    }
}

/// The document that all the bytes spell.
fn whole(alloc: Global, bytes: &[u8]) -> Result<Document, ParseError>
    requires { length bytes.now ≤ MAX_READ }
    ensures { IsAnswerUnlessMemory result (outcome State.Start 0 (lines bytes.now)) }
{
    let (document, _len, _lines) = course(alloc, bytes, false)?;
    Ok(document)
}

/// Reads a document. There are at most [`om_signs::MAX_READ`] bytes.
///
/// The bytes are split into lines at line feeds. In a line, everything from the first `#` on is a comment, and the
/// words are the longest runs of bytes other than space, tab and carriage return. A line without words is skipped.
/// The other lines are, in order:
///
/// - `om 1` or `om 2`;
/// - a kind line: `chirotope r n`, `circuits n`, `cocircuits n`, `covectors n`, `wiring n` or `points n`;
/// - after `om 2`, setting lines;
/// - body lines;
/// - `end`.
///
/// The body of a map or a list has the signs `+`, `-` and `0`. A map has exactly one for each set of `r` elements,
/// at most [`om_signs::MAX_VALUES`], joined over all body lines. A list has one member of `n` signs per line, and a
/// repeated line adds nothing.
///
/// A wiring has words `i-j`, one for each block: two numbers of at most three digits without a leading zero. Points
/// have exactly `n` lines of three numbers of absolute value at most [`om_signs::MAX_COORDINATE`]. Each is written
/// in decimal digits without a leading zero, with or without a `-` before them; `0` has no `-`.
///
/// The setting lines are `names` with a [`Name`](crate::Name) for each element, no two of them equal, and then, for
/// a map, `order lex` or `order revlex`, and for a list `half`. Each may be omitted. A line after the first body
/// line is no setting line, whatever it begins with.
///
/// After `order revlex` the values of a map are in reverse lexicographic order. In this order a set comes before
/// another if it has the smaller element at the last position in which their increasing lists differ. The document
/// has the values in lexicographic order. After `half` each line of a list gives its member and then the negative
/// of it.
///
/// # Errors
///
/// [`ParseError::Line`] exactly if the bytes are no such document within the limits. Its `line` is the first at
/// which no document can continue, and its `code` is the first in the list of [`Code`] that holds of this line. The
/// end of the input counts as the line after the last one, with [`Code::Missing`]. [`ParseError::Memory`] if memory
/// ran out.
pub fn parse(alloc: Global, bytes: &[u8]) -> Result<Document, ParseError>
    requires { length bytes.now ≤ MAX_READ }
    // If a document is read, the bytes are this document.
    ensures document { IfOk result (λ d. IsDocument (lines bytes.now) d) }
    // It has the forms of documents, within the limits.
    ensures form { IfOk result IsInForm }
    // A document is read, unless memory runs out.
    ensures every { (d : Document) → IsDocument (lines bytes.now) d → IsAnswerUnlessMemory result (Ok d) }
    // The line that is returned is the first at fault, with its code.
    ensures fault { IfLine result (IsFault (lines bytes.now)) }
    // A fault is returned, unless memory runs out.
    ensures first { (line : ℕ) (code : Code) → IsFault (lines bytes.now) line code
        → IsAnswerUnlessMemory result (Err (line, code)) }
{
    whole(alloc, bytes)
}

/// Reads a document at the front of the bytes, up to and including its line `end`. Returns the document, the number
/// of bytes and the number of lines that were read. The bytes after that line may be anything. There are at most
/// [`om_signs::MAX_READ`] bytes.
///
/// The bytes that were read are the first lines with their line feeds (the line `end` may have none, at the end of
/// the bytes). They are a document by themselves, as in [`parse`], and the other bytes are the other lines.
///
/// # Errors
///
/// [`ParseError::Line`] exactly if [`parse`] returns a line with a code other than [`Code::After`], with the same
/// line and the same code. [`ParseError::Memory`] if memory ran out.
pub fn parse_part(alloc: Global, bytes: &[u8]) -> Result<(Document, usize, u32), ParseError>
    requires { length bytes.now ≤ MAX_READ }
    // The lines read are a document with this value, and the last of them is its end line.
    ensures part { IfOk result (λ r. IsDocumentAtFront bytes.now r.0 r.1 r.2) }
    // It has the forms of documents, within the limits.
    ensures form { IfOk result (λ r. IsInForm r.0) }
    // If there is such a document, it is read, unless memory runs out.
    ensures every { (d : Document) (len count : ℕ) → IsDocumentAtFront bytes.now d len count
        → IsAnswerUnlessMemory result (Ok (d, len, count)) }
    // The line that is returned is the first at fault of all the bytes, with its code, and this isn't `after`.
    ensures fault { IfLine result (λ line code. IsFault (lines bytes.now) line code × (code ≢ Code.After)) }
    // A fault other than `after` is returned, unless memory runs out.
    ensures first { (line : ℕ) (code : Code) → IsFault (lines bytes.now) line code → code ≢ Code.After
        → IsAnswerUnlessMemory result (Err (line, code)) }
{
    course(alloc, bytes, true)
}
