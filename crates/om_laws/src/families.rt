//! Finite families of sign vectors, as lists.

ghost use Rattle.std.specs.Prelude.{◌↔◌, List, ℕ};
ghost use Rattle.om_signs.specs.declared.sign.Sign.{Sign};
ghost use Rattle.om_laws.specs.Members.{IsDistinct};
ghost use Rattle.om_laws.specs.Chirotope.{IsChirotope};
ghost use Rattle.om_laws.specs.Circuits.{IsCircuit, IsCocircuit};
ghost use Rattle.om_laws.specs.Vectors.{SignVector};
ghost use Rattle.om_laws.specs.Axioms.{CircuitAxioms, CovectorAxioms};
ghost use Rattle.om_laws.specs.Covectors.{IsMinimal, IsCovector};
ghost use Rattle.om_laws.specs.Compositions.{IsComposition, HasConformingParts};
ghost use Rattle.om_laws.specs.Families.{IsListed, AreSupportedOn};

/// Take a list of sign vectors that meets the covector axioms. Its nonzero members of minimal support meet the
/// circuit axioms. Its members are the compositions of these. They are also the sign vectors that have, at each
/// element of their support, the sign of some conforming one of these.
pub fn members_of_minimal_support()
    ensures axioms { (E : List ℕ) (Ls : List SignVector) → AreSupportedOn E Ls → CovectorAxioms (IsListed Ls)
        → CircuitAxioms (IsMinimal (IsListed Ls)) }
    ensures parts { (E : List ℕ) (Ls : List SignVector) → AreSupportedOn E Ls → CovectorAxioms (IsListed Ls)
        → (X : SignVector) → IsListed Ls X ↔ HasConformingParts (IsMinimal (IsListed Ls)) X }
    ensures compositions { (E : List ℕ) (Ls : List SignVector) → AreSupportedOn E Ls → CovectorAxioms (IsListed Ls)
        → (X : SignVector) → IsListed Ls X ↔ IsComposition (IsMinimal (IsListed Ls)) X }
{}

/// A finite list of sign vectors that meets the circuit axioms is the list of the circuits of a chirotope, and the
/// list of the cocircuits of another one.
pub fn chirotope_of_circuits()
    ensures circuits { (E : List ℕ) (Ks : List SignVector) → IsDistinct E → AreSupportedOn E Ks
        → CircuitAxioms (IsListed Ks) → (chi : List ℕ → Sign) × IsChirotope E chi
        × ((X : SignVector) → IsListed Ks X ↔ IsCircuit E chi X) }
    ensures cocircuits { (E : List ℕ) (Ks : List SignVector) → IsDistinct E → AreSupportedOn E Ks
        → CircuitAxioms (IsListed Ks) → (chi : List ℕ → Sign) × IsChirotope E chi
        × ((X : SignVector) → IsListed Ks X ↔ IsCocircuit chi X) }
{}

/// A finite list of sign vectors that meets the covector axioms is the list of the covectors of a chirotope.
pub fn chirotope_of_covectors()
    ensures { (E : List ℕ) (Ls : List SignVector) → IsDistinct E → AreSupportedOn E Ls → CovectorAxioms (IsListed Ls)
        → (chi : List ℕ → Sign) × IsChirotope E chi × ((X : SignVector) → IsListed Ls X ↔ IsCovector E chi X) }
{}
