//! The covectors of a chirotope.

ghost use Rattle.std.specs.Prelude.{◌≡◌, ◌+◌, ◌↔◌, IsTrue, length};
ghost use Rattle.om_signs.specs.SignVec.{IsOrthogonal};
ghost use Rattle.om_chirotope.specs.Map.{circuit_vector};
ghost use Rattle.om_chirotope.specs.Chirotope.{IsChirotopeWithinLimits};
ghost use Rattle.om_denotation.specs.Covectors.{IsCovectorOfChirotope};
ghost use Rattle.om_denotation.specs.CovectorLaws.{zero_of_chirotope, negative_of_chirotope};
ghost use Rattle.om_denotation.proofs.KindLaws.{composition_of_chirotope, elimination_of_chirotope};

use super::oriented::Oriented;
use om_chirotope::Chirotope;
use om_signs::SignVec;
use om_subsets::Subset;

/// Whether a vector is orthogonal to the vector V of every set of one element more than the rank.
fn is_orthogonal_to_all(chi: &Chirotope, x: SignVec) -> bool
    requires { length x ≡ chi.now.elements }
    ensures { IsTrue result ↔ IsCovectorOfChirotope chi.now x }
{
    Subset::all(chi.rank() + 1, chi.elements()).all(|s| is_orthogonal_to(chi, x, s))
}

/// Whether a vector is orthogonal to the vector V of a set of one element more than the rank.
fn is_orthogonal_to(chi: &Chirotope, x: SignVec, s: Subset) -> bool
    requires length { length x ≡ chi.now.elements }
    requires n { s.n ≡ chi.now.elements }
    requires size { length s.elements ≡ chi.now.rank + 1 }
    ensures { IsTrue result ↔ IsOrthogonal x (circuit_vector chi.now s.elements) }
{
    x.orthogonal(chi.circuit_of(s))
}

/// The covectors are the sign vectors that are orthogonal to the vector V of every set of one element more than the
/// rank.
impl Oriented for Chirotope {
    ghost is_covector = { IsCovectorOfChirotope };

    ghost elements = { λ m. m.elements };

    ghost valid = { IsChirotopeWithinLimits };

    ghost zero = { zero_of_chirotope };

    ghost negative = { negative_of_chirotope };

    ghost composition = { composition_of_chirotope };

    ghost elimination = { elimination_of_chirotope };

    fn elements(&self) -> u8 {
        Chirotope::elements(self)
    }

    fn is_covector(&self, x: SignVec) -> bool {
        is_orthogonal_to_all(self, x)
    }
}
