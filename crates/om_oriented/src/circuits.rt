//! The covectors of circuits.

ghost use Rattle.std.specs.Prelude.{◌≡◌, ◌↔◌, All, IsTrue, length};
ghost use Rattle.om_signs.specs.SignVec.{IsOrthogonal};
ghost use Rattle.om_members.specs.Listings.{HaveLength};
ghost use Rattle.om_circuits.specs.SignedSets.{IsSignedSet};
ghost use Rattle.om_denotation.specs.Covectors.{IsCovectorOfCircuits};
ghost use Rattle.om_denotation.specs.CovectorLaws.{zero_of_circuits, negative_of_circuits};
ghost use Rattle.om_denotation.proofs.KindLaws.{composition_of_circuits, elimination_of_circuits};

use super::oriented::Oriented;
use om_circuits::Circuits;
use om_signs::SignVec;

/// Whether a vector is orthogonal to every member.
fn is_orthogonal_to_all(members: &[SignVec], x: SignVec) -> bool
    requires { HaveLength (length x) members.now }
    ensures { IsTrue result ↔ All (IsOrthogonal x) members.now }
{
    members.iter().all(|y| x.orthogonal(*y))
}

/// The covectors are the sign vectors that are orthogonal to every circuit.
impl Oriented for Circuits {
    ghost is_covector = { λ c. IsCovectorOfCircuits c.0 };

    ghost elements = { λ c. c.0.elements };

    ghost valid = { λ c. IsSignedSet c.0.elements c.0.members };

    ghost zero = { λ c. zero_of_circuits c.0 };

    ghost negative = { λ c. negative_of_circuits c.0 };

    ghost composition = { λ c. composition_of_circuits c.0 };

    ghost elimination = { λ c. elimination_of_circuits c.0 };

    fn elements(&self) -> u8 {
        self.0.elements()
    }

    fn is_covector(&self, x: SignVec) -> bool {
        is_orthogonal_to_all(self.0.members(), x)
    }
}
