//! Whether a sign vector is a covector.

ghost use Rattle.om_representation.specs.Covectors.{IsCovectorIn};
ghost use Rattle.om_representation.specs.Represented.{IsMeantFor};
ghost use Rattle.om_commands.specs.Memberships.{IsMembership};

use om_oriented::Oriented;
use om_printing::Line;
use om_reply::Answer;
use om_representation::Representation;
use om_signs::SignVec;

/// Whether a sign vector is a covector of an oriented matroid. It allocates no memory.
pub fn find_membership(representation: &Representation, x: SignVec) -> Answer
    ensures { IsMeantFor (λ d. IsMembership d.elements (IsCovectorIn d) x) representation.now result }
{
    match representation {
        Representation::Chirotope(chirotope) => membership_in(chirotope, x),
        Representation::Circuits(circuits) => membership_in(circuits, x),
        Representation::Cocircuits(cocircuits) => membership_in(cocircuits, x),
        Representation::Covectors(covectors) => membership_in(covectors, x),
    }
}

/// Whether a sign vector is a covector.
fn membership_in<M: Oriented>(oriented: &M, x: SignVec) -> Answer
    ensures { IsMembership (M.elements oriented.now) (M.is_covector oriented.now) x result }
{
    if x.len() != oriented.elements() {
        let given = u32::from(x.len());
        return Answer::Line(Line::RefusedLength { given });
    }
    if oriented.is_covector(x) {
        Answer::Line(Line::Covector)
    } else {
        Answer::Line(Line::NotCovector)
    }
}
