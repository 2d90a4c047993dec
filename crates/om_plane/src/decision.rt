//! The verdict on whether vectors realize an oriented matroid.

ghost use Rattle.std.specs.Prelude.{IfOk};
ghost use Rattle.om_budgets.specs.Ranges.{AreBudgets};
ghost use Rattle.om_representation.specs.Represented.{IsMeantFor};
ghost use Rattle.om_plane.specs.Decisions.{IsDecision, DecisionMeans};

use om_chirotope::Chirotope;
use om_decide::{Budgets, DecideError, decide};
use om_printing::Line;
use om_reply::{Answer, Claim};
use om_representation::{Representation, choose_chirotope, map_document, rank_line};
use om_signs::NoMemory;
use std::alloc::Global;

/// The verdict on the chirotope of an oriented matroid, within budgets.
pub fn judge(
    alloc: Global,
    representation: Representation,
    budgets: Budgets,
) -> Result<Answer, NoMemory>
    requires { AreBudgets budgets }
    ensures { IfOk result (IsMeantFor (IsDecision budgets) representation) }
{
    match choose_chirotope(alloc, representation) {
        Ok(chirotope) => judge_chirotope(alloc, chirotope, budgets),
        Err(why) => Ok(Answer::Line(rank_line(why)?)),
    }
}

/// The verdict on a chirotope, within budgets.
fn judge_chirotope(
    alloc: Global,
    chirotope: Chirotope,
    budgets: Budgets,
) -> Result<Answer, NoMemory>
    requires { AreBudgets budgets }
    ensures { IfOk result (DecisionMeans budgets chirotope) }
{
    match decide(alloc, &chirotope, budgets) {
        Ok(verdict) => {
            let document = map_document(alloc, chirotope);
            Ok(Answer::Claim(Claim { document, verdict }))
        }
        Err(DecideError::NotRank3 { r }) => Ok(Answer::Line(Line::RefusedNotrank3 { r })),
        Err(DecideError::Memory) => Err(NoMemory),
    }
}
