//! Laws of minors and reorientations. Each function is a theorem: it has an empty body, and its contract is the
//! statement.

ghost use Rattle.std.specs.Prelude.{ℕ, ◌≡◌, ◌≤◌, ◌<◌, ◌-◌, ◌^◌};
ghost use Rattle.om_chirotope.specs.Map.{SignMap};
ghost use Rattle.om_chirotope.specs.Chirotope.{IsChirotope};
ghost use Rattle.om_denotation.specs.Covectors.{IsCovectorOfChirotope};
ghost use Rattle.om_denotation.specs.Operations.{IsDual, IsDeletion, IsContraction};
ghost use Rattle.om_denotation.specs.Maps.{IsNormalFormOf};
ghost use Rattle.om_minors.specs.Minors.{reoriented_on};

/// Deletion from the dual is the dual of contraction. Let D be the dual of M, K the contraction of M at e, and L
/// the dual of K, all in terms of covectors. Then L is the deletion of e from D.
///
/// Source: Björner, Las Vergnas, Sturmfels, White and Ziegler, *Oriented Matroids*, chapter 3.
pub fn deletion_and_contraction_are_dual()
    ensures { (m d k l : SignMap) (e : ℕ) → IsChirotope m → 2 ≤ m.elements → 1 ≤ e → e ≤ m.elements
        → IsDual m.elements (IsCovectorOfChirotope m) (IsCovectorOfChirotope d)
        → IsContraction m.elements e (IsCovectorOfChirotope m) (IsCovectorOfChirotope k)
        → IsDual (m.elements - 1) (IsCovectorOfChirotope k) (IsCovectorOfChirotope l)
        → IsDeletion m.elements e (IsCovectorOfChirotope d) (IsCovectorOfChirotope l) }
{}

/// Reorienting the same set twice gives the normal form of the chirotope.
///
/// Source: Björner, Las Vergnas, Sturmfels, White and Ziegler, *Oriented Matroids*, chapter 3.
pub fn reorientation_twice()
    ensures { (m a b : SignMap) (mask : ℕ) → IsChirotope m
        → IsNormalFormOf (reoriented_on mask m) a → IsNormalFormOf (reoriented_on mask a) b → IsNormalFormOf m b }
{}
