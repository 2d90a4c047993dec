//! The least wiring diagram of a chirotope.

ghost use Rattle.std.specs.Prelude.{◌≡◌, IfOk};
ghost use Rattle.om_document.specs.Form.{IsInForm};
ghost use Rattle.om_representation.specs.Represented.{IsMeantFor};
ghost use Rattle.om_plane.specs.Sweeps.{IsSweepRefusal, IsWiringOf, IsWiringOfMap, wiring_document};

use om_chirotope::Chirotope;
use om_document::{Body, Document};
use om_printing::Line;
use om_reply::Answer;
use om_representation::{Representation, choose_chirotope, rank_line};
use om_signs::{List, NoMemory};
use om_wiring::{SweepError, Wiring, sweep};
use std::alloc::Global;

/// The least wiring diagram of the chirotope of an oriented matroid.
// never inlined, so that the tables of its callees aren't on the stack while other commands run
#[inline(never)]
pub fn find_wiring(alloc: Global, representation: Representation) -> Result<Answer, NoMemory>
    ensures { IfOk result (IsMeantFor IsWiringOf representation) }
{
    match choose_chirotope(alloc, representation) {
        Ok(chirotope) => find_wiring_of(alloc, &chirotope),
        Err(why) => Ok(Answer::Line(rank_line(why)?)),
    }
}

/// The least wiring diagram of a chirotope.
fn find_wiring_of(alloc: Global, chirotope: &Chirotope) -> Result<Answer, NoMemory>
    ensures { IfOk result (IsWiringOfMap chirotope.now) }
{
    match sweep(alloc, chirotope) {
        Ok(wiring) => Ok(Answer::Document(wiring_document(alloc, wiring))),
        Err(why) => sweep_refusal(why),
    }
}

/// The line that says why a chirotope isn't sweepable, or that memory ran out.
fn sweep_refusal(why: SweepError) -> Result<Answer, NoMemory>
    ensures { IfOk result (IsSweepRefusal why) }
{
    match why {
        SweepError::NotRank3 { r } => Ok(Answer::Line(Line::RefusedNotrank3 { r })),
        SweepError::NotSweepable { s, a } => Ok(Answer::Line(Line::RefusedNotsweepable { s, a })),
        SweepError::Memory => Err(NoMemory),
    }
}

/// The document of a wiring diagram, without names.
fn wiring_document(alloc: Global, wiring: Wiring) -> Document
    ensures form { IsInForm result }
    ensures value { result ≡ wiring_document wiring.elements wiring.blocks }
{
    let elements = wiring.elements();
    Document {
        elements,
        body: Body::Wiring(wiring.into_blocks()),
        names: List::new(alloc),
    }
}
