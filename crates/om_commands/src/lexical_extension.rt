//! Lexicographic extensions of an oriented matroid.

ghost use Rattle.std.specs.Prelude.{◌≡◌, ◌<◌, IfOk, IfSome};
ghost use Rattle.om_lexext.specs.Lexicographic.{IsLexicographicList};
ghost use Rattle.om_commands.specs.LexicalExtensions.{IsLexicalExtension, IsExtensionOfMap};
ghost use Rattle.om_reply.specs.Above.{first_above};
ghost use Rattle.om_reply.specs.Answers.{says};
ghost use Rattle.om_representation.specs.Documents.{document_of};
ghost use Rattle.om_representation.specs.Represented.{IsMeantFor};
ghost use Rattle.om_words.specs.Tasks.{AreLawful, elements_of, given_list};

use om_chirotope::Chirotope;
use om_lexext::{LexError, Signed, lexical};
use om_printing::Line;
use om_reply::Answer;
use om_representation::{Representation, choose_chirotope, map_document, width_line};
use om_signs::{MAX_ELEMENTS, NoMemory};
use om_words::Leading;
use std::alloc::Global;

/// The lexicographic extension of the chirotope of an oriented matroid. The leading elements are distinct, and
/// their signs aren't zero.
pub fn extend_lexically(
    alloc: Global,
    representation: Representation,
    leading: Leading,
) -> Result<Answer, NoMemory>
    requires { AreLawful leading }
    ensures { IfOk result (IsMeantFor (IsLexicalExtension leading) representation) }
{
    if let Some(line) = early_refusal(&representation, &leading) {
        return Ok(Answer::Line(line));
    }
    match choose_chirotope(alloc, representation) {
        Ok(chirotope) => extend_by(alloc, &chirotope, &leading.list[..leading.count as usize]),
        Err(why) => Ok(Answer::Line(width_line(why)?)),
    }
}

/// The line of a refusal that needs no chirotope: the first listed element is above the number of elements, or this is
/// the greatest one already.
fn early_refusal(representation: &Representation, leading: &Leading) -> Option<Line>
    requires { AreLawful leading.now }
    ensures some { IfSome result (λ line.
        IsLexicalExtension leading.now (document_of representation.now) (says line)) }
    ensures none { result ≡ None
        → (first_above (document_of representation.now).elements (elements_of (given_list leading.now)) ≡ None)
        × ((document_of representation.now).elements < MAX_ELEMENTS) }
{
    let n = representation.elements();
    if let Some(e) = place_above(n, &leading.list[..leading.count as usize]) {
        return Some(Line::RefusedPlace { e });
    }
    if n == MAX_ELEMENTS {
        return Some(Line::RefusedFull { n });
    }
    None
}

/// The lexicographic extension of a chirotope that isn't full. The listed elements are distinct elements of it, and
/// their signs aren't zero.
fn extend_by(alloc: Global, chirotope: &Chirotope, list: &[Signed]) -> Result<Answer, NoMemory>
    requires few { chirotope.now.elements < MAX_ELEMENTS }
    requires list { IsLexicographicList chirotope.now.elements list.now }
    ensures { IfOk result (IsExtensionOfMap list.now chirotope.now) }
{
    match lexical(alloc, chirotope, list) {
        Ok(extension) => Ok(Answer::Document(map_document(alloc, extension))),
        Err(error) => match error {
            LexError::Values { count } => Ok(Answer::Line(Line::LimitValues { values: count })),
            // the chirotope has fewer elements than the limit
            _ => Err(error.memory_alone()),
        },
    }
}

/// The first listed element that is greater than n.
fn place_above(n: u8, list: &[Signed]) -> Option<u8>
    ensures { result ≡ first_above n (elements_of list.now) }
{
    for x in list {
        if n < x.element {
            return Some(x.element);
        }
    }
    None
}
