//! Laws of finite lists of sign vectors that satisfy the axioms of covectors, and of their members of minimal support.
//! Each law is a function that does nothing: its contract is the law.

ghost use Rattle.std.specs.Prelude.{ℕ, List};
ghost use Rattle.std.specs.List.{Contains};
ghost use Rattle.om_signs.specs.declared.sign.Sign.{Sign};
ghost use Rattle.om_signs.specs.SignVec.{IsInSupport};
ghost use Rattle.om_laws.specs.Axioms.{CovectorAxioms};
ghost use Rattle.om_laws.specs.Chirotope.{elements_to};
ghost use Rattle.om_laws.specs.Families.{IsListed, AreSupportedOn};
ghost use Rattle.om_covectors.specs.Axioms.{MeetsCovectorAxioms};
ghost use Rattle.om_members.specs.Listings.{HaveLength};
ghost use Rattle.om_covectors.specs.Minimality.{IsMinimal, AreThose};
ghost use Rattle.om_circuits.specs.Axioms.{MeetsCircuitAxioms};
ghost use Rattle.om_denotation.specs.Compositions.{HasConformingParts};
ghost use Rattle.om_denotation.specs.Denotation.{DenoteTheSame};
ghost use Rattle.om_denotation.specs.Families.{as_functions};
ghost use Rattle.om_denotation.specs.MinimalParts.{HasMinimalPart};

/// The functions of lists of n signs are zero off the elements 1 to n. If the lists satisfy the axioms of covectors,
/// their functions do too.
///
/// Source: Björner, Las Vergnas, Sturmfels, White and Ziegler, *Oriented Matroids*, chapter 4.
pub fn functions_of_lists()
    ensures support { (n : ℕ) (members : List (List Sign)) → HaveLength n members
        → AreSupportedOn (elements_to n) (as_functions members) }
    ensures axioms { (members : List (List Sign)) → MeetsCovectorAxioms members
        → CovectorAxioms (IsListed (as_functions members)) }
{}

/// Conformal decomposition: at each place of the support of a covector, some nonzero covector of minimal support
/// that conforms to it has the same sign.
///
/// Source: Björner, Las Vergnas, Sturmfels, White and Ziegler, *Oriented Matroids*, chapters 3 and 4.
pub fn conformal_parts_of_lists()
    ensures { (n : ℕ) (members : List (List Sign)) → HaveLength n members → MeetsCovectorAxioms members
        → (X : List Sign) → Contains members X → (i : ℕ) → IsInSupport X i → HasMinimalPart members X i }
{}

/// The nonzero covectors of minimal support satisfy the axioms of circuits.
///
/// Source: Björner, Las Vergnas, Sturmfels, White and Ziegler, *Oriented Matroids*, chapters 3 and 4.
pub fn cocircuits_of_covectors()
    ensures { (n : ℕ) (members : List (List Sign)) → HaveLength n members → MeetsCovectorAxioms members
        → (cocircuits : List (List Sign)) → AreThose (IsMinimal members) members cocircuits
        → MeetsCircuitAxioms cocircuits }
{}

/// The covectors are the lists of n signs that have, at each place of their support, the sign of some nonzero
/// covector of minimal support that conforms to them.
///
/// Source: Björner, Las Vergnas, Sturmfels, White and Ziegler, *Oriented Matroids*, chapters 3 and 4.
pub fn covectors_of_minimal_members()
    ensures { (n : ℕ) (members : List (List Sign)) → HaveLength n members → MeetsCovectorAxioms members
        → (cocircuits : List (List Sign)) → AreThose (IsMinimal members) members cocircuits
        → DenoteTheSame n (Contains members) (HasConformingParts (Contains cocircuits)) }
{}
