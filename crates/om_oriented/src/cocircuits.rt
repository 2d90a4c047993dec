//! The covectors of cocircuits.

ghost use Rattle.std.specs.Prelude.{ℕ, ◌≡◌, ◌↔◌, List, IsTrue, length};
ghost use Rattle.om_signs.specs.SignVec.{IsInSupport};
ghost use Rattle.om_members.specs.Listings.{HaveLength};
ghost use Rattle.om_circuits.specs.SignedSets.{IsSignedSet};
ghost use Rattle.om_denotation.specs.Covectors.{IsCovectorOfCocircuits, HasConformingMember};
ghost use Rattle.om_denotation.specs.CovectorLaws.{zero_of_cocircuits, negative_of_cocircuits};
ghost use Rattle.om_denotation.proofs.KindLaws.{composition_of_cocircuits, elimination_of_cocircuits};

use super::oriented::Oriented;
use om_circuits::Cocircuits;
use om_signs::SignVec;

/// Whether a vector has, at each place of its support, the sign of a member that conforms to it. Then it is the
/// composition of all members that conform to it.
fn is_composed(members: &[SignVec], x: SignVec) -> bool
    requires { HaveLength (length x) members.now }
    ensures { IsTrue result ↔ ((i : ℕ) → IsInSupport x i → HasConformingMember members.now x i) }
{
    let mut composed = SignVec::zero(x.len());
    for y in members {
        if y.conforms(x) {
            composed = composed.compose(*y);
        }
    }
    composed == x
}

/// The covectors are the sign vectors that have, at each element of their support, the sign of a cocircuit that
/// conforms to them.
impl Oriented for Cocircuits {
    ghost is_covector = { λ c. IsCovectorOfCocircuits c.0 };

    ghost elements = { λ c. c.0.elements };

    ghost valid = { λ c. IsSignedSet c.0.elements c.0.members };

    ghost zero = { λ c. zero_of_cocircuits c.0 };

    ghost negative = { λ c. negative_of_cocircuits c.0 };

    ghost composition = { λ c. composition_of_cocircuits c.0 };

    ghost elimination = { λ c. elimination_of_cocircuits c.0 };

    fn elements(&self) -> u8 {
        self.0.elements()
    }

    fn is_covector(&self, x: SignVec) -> bool {
        is_composed(self.0.members(), x)
    }
}
