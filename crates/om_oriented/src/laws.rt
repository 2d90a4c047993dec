//! Laws of the circuits, cocircuits and covectors of a chirotope, as lists of signs. Each law is a function that
//! does nothing: its contract is the law.

ghost use Rattle.std.specs.Prelude.{ℕ, ◌≡◌, ◌≤◌, ◌↔◌, ◌⊎◌, List, length};
ghost use Rattle.std.specs.List.{Contains};
ghost use Rattle.om_signs.specs.declared.sign.Sign.{Sign};
ghost use Rattle.om_signs.specs.SignVec.{IsOrthogonal};
ghost use Rattle.om_laws.specs.Colours.{Colour, IsColoured};
ghost use Rattle.om_chirotope.specs.Map.{SignMap, negated};
ghost use Rattle.om_chirotope.specs.Chirotope.{IsChirotope};
ghost use Rattle.om_members.specs.Listings.{Listing, HaveLength};
ghost use Rattle.om_circuits.specs.Axioms.{MeetsCircuitAxioms};
ghost use Rattle.om_covectors.specs.Axioms.{MeetsCovectorAxioms};
ghost use Rattle.om_denotation.specs.Circuits.{IsCircuitOfChirotope, IsCocircuitOfChirotope};
ghost use Rattle.om_denotation.specs.Covectors.{IsCovectorOfChirotope, IsCovectorOfCircuits, IsCovectorOfCocircuits};
ghost use Rattle.om_denotation.specs.Covectors.{IsCovectorOfCovectors};
ghost use Rattle.om_denotation.specs.Denotation.{DenoteTheSame};
ghost use Rattle.om_denotation.specs.Existence.{HasCircuits, HasCocircuits, HasCovectors};
ghost use Rattle.om_denotation.specs.FamilyAxioms.{HasCircuitAxioms, HasCovectorAxioms};
ghost use Rattle.om_denotation.specs.Painting.{IsFittingCircuit, IsFittingCocircuit};
ghost use Rattle.om_denotation.specs.Compositions.{IsCompositionOf, IsConforming, HasConformingParts};
ghost use Rattle.om_denotation.specs.Compositions.{IsOrthogonalToEach, IsOfLeastSupport};

/// Each circuit is orthogonal to each cocircuit.
///
/// Source: Björner, Las Vergnas, Sturmfels, White and Ziegler, *Oriented Matroids*, chapter 3.
pub fn orthogonality()
    ensures { (m : SignMap) → IsChirotope m → (X Y : List Sign) → IsCircuitOfChirotope m X → IsCocircuitOfChirotope m Y
        → IsOrthogonal X Y }
{}

/// The painting lemma. Let each element from 1 to n be red, green, black or white, and let e be red or green. Then
/// exactly one of two things exists. One is a circuit that is nonzero at e, nonnegative on red, nonpositive on
/// green and zero on white. The other is a cocircuit that is nonzero at e, nonnegative on red, nonpositive on green
/// and zero on black.
///
/// Source: Björner, Las Vergnas, Sturmfels, White and Ziegler, *Oriented Matroids*, chapter 3.
pub fn painting()
    ensures one { (m : SignMap) → IsChirotope m → (colour : ℕ → Colour) (e : ℕ) → 1 ≤ e → e ≤ m.elements
        → IsColoured (colour e)
        → ((X : List Sign) × IsFittingCircuit m colour e X) ⊎ ((Y : List Sign) × IsFittingCocircuit m colour e Y) }
    ensures only { (m : SignMap) → IsChirotope m → (colour : ℕ → Colour) (e : ℕ) → 1 ≤ e → e ≤ m.elements
        → IsColoured (colour e)
        → (X Y : List Sign) → IsFittingCircuit m colour e X → IsFittingCocircuit m colour e Y → ⊥ }
{}

/// The circuits and the cocircuits satisfy the axioms of circuits. No member is zero, the negative of a member is a
/// member, members with nested supports are equal up to sign, and weak elimination holds. The covectors meet the
/// axioms of covectors: zero, negatives, compositions and elimination.
///
/// Source: Björner, Las Vergnas, Sturmfels, White and Ziegler, *Oriented Matroids*, chapters 3 and 4.
pub fn axioms()
    ensures circuits { (m : SignMap) → IsChirotope m → HasCircuitAxioms (IsCircuitOfChirotope m) }
    ensures cocircuits { (m : SignMap) → IsChirotope m → HasCircuitAxioms (IsCocircuitOfChirotope m) }
    ensures covectors { (m : SignMap) → IsChirotope m → HasCovectorAxioms m.elements (IsCovectorOfChirotope m) }
{}

/// The covectors are the compositions of cocircuits; the composition of no cocircuits is zero.
///
/// Source: Björner, Las Vergnas, Sturmfels, White and Ziegler, *Oriented Matroids*, chapters 3 and 4.
pub fn compositions()
    ensures { (m : SignMap) → IsChirotope m → (X : List Sign) → IsCovectorOfChirotope m X
        ↔ IsCompositionOf m.elements (IsCocircuitOfChirotope m) X }
{}

/// Conformal decomposition: the covectors are the compositions of cocircuits that conform to them.
///
/// Source: Björner, Las Vergnas, Sturmfels, White and Ziegler, *Oriented Matroids*, chapters 3 and 4.
pub fn conformal_decomposition()
    ensures { (m : SignMap) → IsChirotope m → (X : List Sign)
        → IsCovectorOfChirotope m X ↔ IsCompositionOf m.elements (IsConforming (IsCocircuitOfChirotope m) X) X }
{}

/// A chirotope, its circuits and its cocircuits denote the same covectors. Consider the lists of n signs. The
/// covectors of the chirotope are those that are orthogonal to every circuit. They are also those that have, at
/// each place of their support, the sign of a cocircuit that conforms to them.
///
/// Source: Björner, Las Vergnas, Sturmfels, White and Ziegler, *Oriented Matroids*, chapters 3 and 4.
pub fn denotations()
    ensures circuits { (m : SignMap) → IsChirotope m → (X : List Sign) → length X ≡ m.elements
        → IsCovectorOfChirotope m X ↔ IsOrthogonalToEach (IsCircuitOfChirotope m) X }
    ensures cocircuits { (m : SignMap) → IsChirotope m → (X : List Sign) → length X ≡ m.elements
        → IsCovectorOfChirotope m X ↔ HasConformingParts (IsCocircuitOfChirotope m) X }
{}

/// The cocircuits are the nonzero covectors of minimal support.
///
/// Source: Björner, Las Vergnas, Sturmfels, White and Ziegler, *Oriented Matroids*, chapters 3 and 4.
pub fn minimal_support()
    ensures { (m : SignMap) → IsChirotope m → (X : List Sign) → IsCocircuitOfChirotope m X
        ↔ IsOfLeastSupport (IsCovectorOfChirotope m) X }
{}

/// Each list that satisfies the axioms of circuits lists the circuits of some chirotope, and the cocircuits of another
/// one. Each list that satisfies the axioms of covectors lists the covectors of some chirotope. In each case the
/// chirotope denotes the same as the list.
///
/// Source: Björner, Las Vergnas, Sturmfels, White and Ziegler, *Oriented Matroids*, chapter 3.
pub fn chirotopes_of_lists()
    ensures circuits { (c : Listing) → HaveLength c.elements c.members → MeetsCircuitAxioms c.members → (m : SignMap)
        × HasCircuits c m }
    ensures cocircuits { (c : Listing) → HaveLength c.elements c.members → MeetsCircuitAxioms c.members → (m : SignMap)
        × HasCocircuits c m }
    ensures covectors { (c : Listing) → HaveLength c.elements c.members → MeetsCovectorAxioms c.members → (m : SignMap)
        × HasCovectors c m }
{}

/// What denotes an oriented matroid is unique among its kind. Two chirotopes that denote the same are equal or
/// negatives of each other. Two lists of circuits, of cocircuits or of covectors that denote the same have the same
/// members.
///
/// Source: Björner, Las Vergnas, Sturmfels, White and Ziegler, *Oriented Matroids*, chapter 3.
pub fn uniqueness()
    ensures chirotopes { (m k : SignMap) → IsChirotope m → IsChirotope k → k.elements ≡ m.elements
        → DenoteTheSame m.elements (IsCovectorOfChirotope m) (IsCovectorOfChirotope k) → (k ≡ m) ⊎ (k ≡ negated m) }
    ensures circuits { (c d : Listing) → HaveLength c.elements c.members → HaveLength d.elements d.members
        → MeetsCircuitAxioms c.members → MeetsCircuitAxioms d.members
        → d.elements ≡ c.elements → DenoteTheSame c.elements (IsCovectorOfCircuits c) (IsCovectorOfCircuits d)
        → (X : List Sign) → Contains c.members X ↔ Contains d.members X }
    ensures cocircuits { (c d : Listing) → HaveLength c.elements c.members → HaveLength d.elements d.members
        → MeetsCircuitAxioms c.members → MeetsCircuitAxioms d.members
        → d.elements ≡ c.elements → DenoteTheSame c.elements (IsCovectorOfCocircuits c) (IsCovectorOfCocircuits d)
        → (X : List Sign) → Contains c.members X ↔ Contains d.members X }
    ensures covectors { (c d : Listing) → HaveLength c.elements c.members → HaveLength d.elements d.members
        → d.elements ≡ c.elements → DenoteTheSame c.elements (IsCovectorOfCovectors c) (IsCovectorOfCovectors d)
        → (X : List Sign) → Contains c.members X ↔ Contains d.members X }
{}
