//! What a task needs. A task is looked at once, by [`plan_of`].

ghost use Rattle.std.specs.Prelude.{◌≡◌};
ghost use Rattle.om_program.specs.Plans.{plan_for};

use om_budgets::Budgets;
use om_commands::Operation;
use om_document::Kind;
use om_signs::SignVec;
use om_words::{Colouring, Leading, Task};

/// What is done for a task.
#[derive(Clone, Copy)]
pub enum Plan {
    /// Vectors are made from a number, and nothing is read.
    Make { seed: u32, count: u8 },
    /// An input is read.
    Read(Reading),
}

/// What is read, and what is done with it.
#[derive(Clone, Copy)]
pub enum Reading {
    /// A claim, whose evidence is checked.
    Claim,
    /// A document.
    Document(OnDocument),
}

/// What is done with a document.
#[derive(Clone, Copy)]
pub enum OnDocument {
    /// It is tested whether it meets the axioms of its kind.
    Accept,
    /// Its map is given to the three-term test.
    ThreeTerm,
    /// It is written in version 2 of the format.
    Upgrade,
    /// Something is done with the oriented matroid that it gives.
    Matroid(OnMatroid),
}

/// What is done with an oriented matroid.
#[derive(Clone, Copy)]
pub enum OnMatroid {
    /// It is tested whether the sign vector is a covector.
    Member(SignVec),
    /// It is written as a document of this kind.
    Convert(Kind),
    /// The dual, a minor or a reorientation is made.
    Operate(Operation),
    /// The least wiring is sought.
    Wiring,
    /// The mutations are listed.
    Mutations,
    /// The sign of these three elements is turned.
    Flip(u8, u8, u8),
    /// The first extensions by one element are listed, as many as `first` says.
    Extend { first: u64 },
    /// What fits these colours is sought.
    Paint(Colouring),
    /// The extreme elements are sought.
    Hull,
    /// The lexicographic extension by these elements with signs is made.
    Lexext(Leading),
    /// Vectors and a certificate are sought, within these budgets.
    Decide(Budgets),
}

/// What is done for a task.
pub fn plan_of(task: Task) -> Plan
    ensures { result ≡ plan_for task }
{
    match task {
        Task::Make { seed, count } => Plan::Make { seed, count },
        Task::Check => Plan::Read(Reading::Claim),
        Task::Accept => on_document(OnDocument::Accept),
        Task::Threeterm => on_document(OnDocument::ThreeTerm),
        Task::Upgrade => on_document(OnDocument::Upgrade),
        Task::Member(x) => on_matroid(OnMatroid::Member(x)),
        Task::Convert(kind) => on_matroid(OnMatroid::Convert(kind)),
        Task::Dual => on_matroid(OnMatroid::Operate(Operation::Dual)),
        Task::Delete(e) => on_matroid(OnMatroid::Operate(Operation::Delete(e))),
        Task::Contract(e) => on_matroid(OnMatroid::Operate(Operation::Contract(e))),
        Task::Reorient(mask) => on_matroid(OnMatroid::Operate(Operation::Reorient(mask))),
        Task::Wiring => on_matroid(OnMatroid::Wiring),
        Task::Mutations => on_matroid(OnMatroid::Mutations),
        Task::Flip(a, b, c) => on_matroid(OnMatroid::Flip(a, b, c)),
        Task::Extend { first } => on_matroid(OnMatroid::Extend { first }),
        Task::Paint(colouring) => on_matroid(OnMatroid::Paint(colouring)),
        Task::Hull => on_matroid(OnMatroid::Hull),
        Task::Lexext(leading) => on_matroid(OnMatroid::Lexext(leading)),
        Task::Decide(budgets) => on_matroid(OnMatroid::Decide(budgets)),
    }
}

/// The plan to do this with an oriented matroid.
fn on_matroid(what: OnMatroid) -> Plan
    ensures { result ≡ Plan.Read (Reading.Document (OnDocument.Matroid what)) }
{
    on_document(OnDocument::Matroid(what))
}

/// The plan to do this with a document.
fn on_document(what: OnDocument) -> Plan
    ensures { result ≡ Plan.Read (Reading.Document what) }
{
    Plan::Read(Reading::Document(what))
}
