//! The convex hull of an oriented matroid.

ghost use Rattle.std.specs.Prelude.{IfOk};
ghost use Rattle.om_commands.specs.Hulls.{IsCyclicAnswer, IsHull, IsHullOfMap};
ghost use Rattle.om_representation.specs.Represented.{IsMeantFor};

use om_chirotope::Chirotope;
use om_paint::{HullError, hull};
use om_printing::Line;
use om_reply::Answer;
use om_representation::{Representation, choose_chirotope, width_line};
use om_signs::NoMemory;
use std::alloc::Global;

/// The hull of the chirotope of an oriented matroid: which elements are extreme. If it isn't acyclic, the first
/// circuit without a minus.
pub fn find_hull(alloc: Global, representation: Representation) -> Result<Answer, NoMemory>
    ensures { IfOk result (IsMeantFor IsHull representation) }
{
    match choose_chirotope(alloc, representation) {
        Ok(chirotope) => find_hull_of(alloc, &chirotope),
        Err(why) => Ok(Answer::Line(width_line(why)?)),
    }
}

/// The hull of a chirotope.
fn find_hull_of(alloc: Global, chirotope: &Chirotope) -> Result<Answer, NoMemory>
    ensures { IfOk result (IsHullOfMap chirotope.now) }
{
    match hull(alloc, chirotope) {
        Ok(items) => Ok(Answer::Hull(items)),
        Err(why) => refuse_hull(why),
    }
}

/// The answer if there is no hull: the circuit without a minus. If memory ran out there is no answer.
fn refuse_hull(why: HullError) -> Result<Answer, NoMemory>
    ensures { IfOk result (IsCyclicAnswer why) }
{
    match why {
        HullError::Cyclic { x } => Ok(Answer::Line(Line::Cyclic { x })),
        HullError::Memory => Err(NoMemory),
    }
}
