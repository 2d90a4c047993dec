//! From a piece of the input to a member of a list.

ghost use Rattle.std.specs.Prelude.{ℕ, ◌≡◌, ◌≢◌, ◌≤◌, ◌⊎◌, List, length, IfOk};
ghost use Rattle.om_chirotope.specs.Chirotope.{IsChirotope};
ghost use Rattle.om_chirotope.specs.Map.{map_of};
ghost use Rattle.om_document.specs.Form.{IsInForm};
ghost use Rattle.om_document.specs.Document.{IsDocument};
ghost use Rattle.om_lines.specs.Lines.{lines};
ghost use Rattle.om_subsets.specs.Subsets.{choose};
ghost use Rattle.om_classification.specs.Documents.{IsMember, IsAtFault};

use super::fault::Fault;
use om_chirotope::{Chirotope, check};
use om_document::{Body, Document};
use om_signs::{MAX_ELEMENTS, MAX_INPUT, RawMap};
use om_text::{ParseError, parse};
use std::alloc::Global;
use std::thread::Threads;

/// Why no member was read.
#[derive(Clone, Copy, Debug)]
pub enum Unread {
    /// The piece is no document of a chirotope of rank 3.
    Fault(Fault),
    /// Memory ran out.
    Memory,
}

/// The rank of members.
const RANK: u8 = 3;

/// The chirotope of rank 3 of which the piece is a document. Memory comes from `alloc`.
///
/// [`Unread::Fault`] comes exactly if it is no such document, and [`Unread::Memory`] only if memory runs out.
pub fn read_member<R: Threads + Sync>(
    rt: &R,
    alloc: Global,
    piece: &[u8],
) -> Result<Chirotope, Unread>
    ensures member { IfOk result (IsMember piece.now) }
    ensures fault { (why : Fault) → result ≡ Err (Unread.Fault why) → IsAtFault piece.now why }
{
    if piece.len() > MAX_INPUT {
        return Err(Unread::Fault(Fault::Long));
    }
    match parse(alloc, piece) {
        Ok(document) => member_of(rt, document),
        Err(ParseError::Line { line, code }) => Err(Unread::Fault(Fault::Line { line, code })),
        Err(ParseError::Memory) => Err(Unread::Memory),
    }
}

/// The chirotope of rank 3 of which this is the document.
fn member_of<R: Threads + Sync>(rt: &R, document: Document) -> Result<Chirotope, Unread>
    requires form { IsInForm document }
    ensures member { IfOk result (λ m. (piece : List ℕ) → length piece ≤ MAX_INPUT
        → IsDocument (lines piece) document → IsMember piece m) }
    ensures fault { (why : Fault) → result ≡ Err (Unread.Fault why) → (piece : List ℕ) → length piece ≤ MAX_INPUT
        → IsDocument (lines piece) document → IsAtFault piece why }
{
    let Document { body, .. } = document;
    let Body::Chirotope(raw) = body else {
        return Err(Unread::Fault(Fault::Kind));
    };
    chirotope_of(rt, raw)
}

/// The chirotope of rank 3 with this map.
fn chirotope_of<R: Threads + Sync>(rt: &R, raw: RawMap) -> Result<Chirotope, Unread>
    requires low { 1 ≤ raw.elements }
    requires high { raw.elements ≤ MAX_ELEMENTS }
    requires rank { raw.rank ≤ raw.elements }
    requires whole { length raw.signs ≡ choose raw.elements raw.rank }
    ensures value { IfOk result (λ m. m ≡ map_of raw) }
    ensures axioms { IfOk result IsChirotope }
    ensures three { IfOk result (λ m. m.rank ≡ 3) }
    ensures fault { (why : Fault) → result ≡ Err (Unread.Fault why)
        → ((why ≡ Fault.Axioms) × (IsChirotope (map_of raw) → ⊥))
        ⊎ ((why ≡ Fault.Rank) × IsChirotope (map_of raw) × (raw.rank ≢ 3)) }
{
    match check(rt, raw) {
        Ok(chi) => {
            if chi.rank() == RANK {
                Ok(chi)
            } else {
                Err(Unread::Fault(Fault::Rank))
            }
        }
        Err(_) => Err(Unread::Fault(Fault::Axioms)),
    }
}
