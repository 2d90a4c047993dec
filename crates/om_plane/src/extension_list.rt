//! The extensions of a chirotope by one element.

ghost use Rattle.std.specs.Prelude.{◌≤◌, IfOk};
ghost use Rattle.om_plane.specs.ExtensionLists.{AreExtensions, AreExtensionsOfMap};
ghost use Rattle.om_representation.specs.Represented.{IsMeantFor};
ghost use Rattle.om_words.specs.Tasks.{IsNumberOfLines};

use om_chirotope::Chirotope;
use om_localize::{ExtendError, extensions};
use om_printing::Line;
use om_reply::Answer;
use om_representation::{Representation, choose_chirotope, rank_line};
use om_signs::NoMemory;
use std::alloc::Global;
use std::thread::Threads;

/// The first `first` extensions of the chirotope of an oriented matroid by one element, or all if there are fewer.
pub fn list_extensions<R: Threads + Sync>(
    rt: &R,
    alloc: Global,
    representation: Representation,
    first: u64,
) -> Result<Answer, NoMemory>
    requires { IsNumberOfLines first }
    ensures { IfOk result (IsMeantFor (AreExtensions first) representation) }
{
    match choose_chirotope(alloc, representation) {
        Ok(chirotope) => list_extensions_of(rt, alloc, &chirotope, first),
        Err(why) => Ok(Answer::Line(rank_line(why)?)),
    }
}

/// The first extensions of a chirotope by one element.
fn list_extensions_of<R: Threads + Sync>(
    rt: &R,
    alloc: Global,
    chirotope: &Chirotope,
    first: u64,
) -> Result<Answer, NoMemory>
    requires { IsNumberOfLines first }
    ensures { IfOk result (AreExtensionsOfMap first chirotope.now) }
{
    let elements = chirotope.elements();
    match extensions(rt, alloc, chirotope, first) {
        Ok(listing) => Ok(Answer::Extensions { elements, listing }),
        Err(ExtendError::NotRank3 { r }) => Ok(Answer::Line(Line::RefusedNotrank3 { r })),
        Err(ExtendError::Full { n }) => Ok(Answer::Line(Line::RefusedFull { n })),
        Err(ExtendError::Memory) => Err(NoMemory),
    }
}
