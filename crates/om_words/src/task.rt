ghost use Rattle.std.specs.Prelude.{◌≡◌};
ghost use Rattle.om_words.specs.Tasks.{reads};

use super::colouring::Colouring;
use super::leading::Leading;
use super::reads::Reads;
use om_budgets::Budgets;
use om_document::Kind;
use om_signs::SignVec;

/// What the words after the program's name ask for.
#[derive(Clone, Copy)]
pub enum Task {
    /// `accept`: whether the document satisfies the axioms of its kind.
    Accept,
    /// `member SIGNS`: whether the sign vector is a covector.
    Member(SignVec),
    /// `convert KIND`: the same oriented matroid as a document of this kind.
    Convert(Kind),
    /// `dual`: the dual.
    Dual,
    /// `delete E`: the deletion of this element, from 1 to [`MAX_ELEMENTS`](om_signs::MAX_ELEMENTS).
    Delete(u8),
    /// `contract E`: the contraction of this element, from 1 to [`MAX_ELEMENTS`](om_signs::MAX_ELEMENTS).
    Contract(u8),
    /// `reorient E..`: the reorientation of the elements of this mask, in which bit e - 1 stands for element e.
    Reorient(u32),
    /// `wiring`: the least wiring diagram of the chirotope.
    Wiring,
    /// `mutations`: the mutations of the chirotope.
    Mutations,
    /// `flip A B C`: the chirotope with the sign of these three elements negated. They are strictly increasing,
    /// from 1 to [`MAX_ELEMENTS`](om_signs::MAX_ELEMENTS).
    Flip(u8, u8, u8),
    /// `extend --first=K`: the first K extensions of the chirotope by one element. K is from 1 to
    /// [`MAX_LINES`](om_signs::MAX_LINES).
    Extend { first: u64 },
    /// `paint COLOURS E`: the circuit or the cocircuit that fits these colours at this element.
    Paint(Colouring),
    /// `hull`: whether the oriented matroid is acyclic, and its extreme elements.
    Hull,
    /// `lexext W..`: the lexicographic extension by these elements with signs.
    Lexext(Leading),
    /// `threeterm`: whether the map of the document passes the three-term test.
    Threeterm,
    /// `upgrade`: the document in version 2 of the format.
    Upgrade,
    /// `decide --box=K --steps=T --pivots=P`: whether vectors realize the chirotope, within these budgets.
    Decide(Budgets),
    /// `check`: whether the evidence of a claim proves its verdict.
    Check,
    /// `make N --count=K`: the K vectors that the number N determines, and their summary. K is from
    /// [`MIN_DRAWN`](om_signs::MIN_DRAWN) to [`MAX_DRAWN`](om_signs::MAX_DRAWN).
    Make { seed: u32, count: u8 },
}

impl Task {
    /// What the task reads.
    pub fn reads(&self) -> Reads
        ensures { result ≡ reads self.now }
    {
        match self {
            Task::Check => Reads::Claim,
            Task::Make { .. } => Reads::Nothing,
            _ => Reads::Document,
        }
    }
}
