//! Laws of duals. Each function is a theorem: it has an empty body, and its contract is the statement.

ghost use Rattle.std.specs.Prelude.{◌≡◌, ℕ};
ghost use Rattle.om_chirotope.specs.Map.{SignMap};
ghost use Rattle.om_chirotope.specs.Chirotope.{IsChirotope};
ghost use Rattle.om_denotation.specs.Covectors.{IsCovectorOfChirotope};
ghost use Rattle.om_denotation.specs.Denotation.{DenoteTheSame};
ghost use Rattle.om_denotation.specs.Maps.{IsNormalFormOf};
ghost use Rattle.om_denotation.specs.Dual.{dual_of};

/// The dual of the dual of a chirotope is its normal form.
///
/// Source: Björner, Las Vergnas, Sturmfels, White and Ziegler, *Oriented Matroids*, chapter 3.
pub fn dual_of_the_dual()
    ensures { (m d c : SignMap) → IsChirotope m → IsNormalFormOf (dual_of m) d → IsNormalFormOf (dual_of d) c
        → IsNormalFormOf m c }
{}

/// A chirotope has one normal form, which has the same covectors. Two chirotopes on the same elements with the same
/// covectors have the same normal form.
///
/// Source: Björner, Las Vergnas, Sturmfels, White and Ziegler, *Oriented Matroids*, chapter 3.
pub fn normal_forms()
    ensures one { (m a b : SignMap) → IsNormalFormOf m a → IsNormalFormOf m b → a ≡ b }
    ensures covectors { (m a : SignMap) → IsNormalFormOf m a
        → DenoteTheSame m.elements (IsCovectorOfChirotope m) (IsCovectorOfChirotope a) }
    ensures same { (m k a : SignMap) → IsChirotope m → IsChirotope k → k.elements ≡ m.elements
        → DenoteTheSame m.elements (IsCovectorOfChirotope m) (IsCovectorOfChirotope k) → IsNormalFormOf m a
        → IsNormalFormOf k a }
{}
