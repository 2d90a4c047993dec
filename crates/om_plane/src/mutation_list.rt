//! The mutations of a chirotope.

ghost use Rattle.std.specs.Prelude.{IfOk};
ghost use Rattle.om_plane.specs.MutationLists.{AreMutations, AreMutationsOfMap};
ghost use Rattle.om_representation.specs.Represented.{IsMeantFor};

use om_chirotope::Chirotope;
use om_mutate::{MutationError, mutations};
use om_printing::Line;
use om_reply::Answer;
use om_representation::{Representation, choose_chirotope, rank_line};
use om_signs::NoMemory;
use std::alloc::Global;

/// The mutations of the chirotope of an oriented matroid.
pub fn list_mutations(alloc: Global, representation: Representation) -> Result<Answer, NoMemory>
    ensures { IfOk result (IsMeantFor AreMutations representation) }
{
    match choose_chirotope(alloc, representation) {
        Ok(chirotope) => list_mutations_of(alloc, &chirotope),
        Err(why) => Ok(Answer::Line(rank_line(why)?)),
    }
}

/// The mutations of a chirotope.
fn list_mutations_of(alloc: Global, chirotope: &Chirotope) -> Result<Answer, NoMemory>
    ensures { IfOk result (AreMutationsOfMap chirotope.now) }
{
    match mutations(alloc, chirotope) {
        Ok(sets) => Ok(Answer::Mutations(sets)),
        Err(MutationError::NotRank3 { r }) => Ok(Answer::Line(Line::RefusedNotrank3 { r })),
        Err(MutationError::Memory) => Err(NoMemory),
    }
}
