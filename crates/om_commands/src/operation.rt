//! Duals, minors and reorientations.

ghost use Rattle.std.specs.Prelude.{◌≡◌, ◌<◌, ◌≤◌, ◌^◌, ◌∷◌, [], IfOk};
ghost use Rattle.om_subsets.specs.Members.{members};
ghost use Rattle.om_representation.specs.Documents.{document_of};
ghost use Rattle.om_representation.specs.Represented.{IsMeantFor};
ghost use Rattle.om_representation.specs.Widths.{HasFewValues};
ghost use Rattle.om_reply.specs.Above.{first_above};
ghost use Rattle.om_commands.specs.Operations.{IsLawful, IsOperation, named_elements};

use super::applying::apply;
use super::unmade::Unmade;
use om_printing::Line;
use om_reply::Answer;
use om_representation::{Representation, document_of};
use om_signs::{MAX_ELEMENTS, NoMemory};
use om_subsets::Subset;
use std::alloc::Global;

/// An operation on an oriented matroid.
#[derive(Clone, Copy)]
pub enum Operation {
    /// The dual.
    Dual,
    /// The deletion of an element.
    Delete(u8),
    /// The contraction of an element.
    Contract(u8),
    /// The reorientation of the elements of a mask, in which bit e - 1 stands for element e.
    Reorient(u32),
}

/// The result of an operation on an oriented matroid, as a document, or the line of the first refusal.
pub fn operate(
    alloc: Global,
    representation: Representation,
    operation: Operation,
) -> Result<Answer, NoMemory>
    requires lawful { IsLawful operation }
    requires few { HasFewValues (document_of representation) }
    ensures { IfOk result (IsMeantFor (IsOperation operation) representation) }
{
    if let Some(e) = place_above(representation.elements(), operation) {
        return Ok(Answer::Line(Line::RefusedPlace { e }));
    }
    match apply(alloc, representation, operation) {
        Ok(made) => Ok(Answer::Document(document_of(alloc, made))),
        Err(Unmade::LastElement) => Ok(Answer::Line(Line::RefusedLastelement)),
        Err(Unmade::TooWide { values }) => Ok(Answer::Line(Line::LimitValues { values })),
        Err(Unmade::TooMany { limit }) => Ok(Answer::Line(Line::LimitMembers { limit })),
        Err(Unmade::Memory) => Err(NoMemory),
    }
}

/// The first element that the operation names and that is greater than n.
fn place_above(n: u8, operation: Operation) -> Option<u8>
    requires high { n ≤ MAX_ELEMENTS }
    requires lawful { IsLawful operation }
    ensures { result ≡ first_above n (named_elements operation) }
{
    match operation {
        Operation::Dual => None,
        Operation::Delete(e) | Operation::Contract(e) => above(n, e),
        Operation::Reorient(mask) => first_of_mask(n, mask),
    }
}

/// The element e, if it is greater than n.
fn above(n: u8, e: u8) -> Option<u8>
    ensures { result ≡ first_above n (e ∷ []) }
{
    if n < e { Some(e) } else { None }
}

/// The first element of a mask that is greater than n.
fn first_of_mask(n: u8, mask: u32) -> Option<u8>
    requires high { n ≤ MAX_ELEMENTS }
    requires within { mask < 2 ^ MAX_ELEMENTS }
    ensures { result ≡ first_above n (members mask 1 MAX_ELEMENTS) }
{
    let chosen = Subset::from_mask(mask, MAX_ELEMENTS);
    for e in n + 1..MAX_ELEMENTS + 1 {
        if chosen.has(e) {
            return Some(e);
        }
    }
    None
}
