//! Vectors and covectors of a chirotope.

ghost use Rattle.std.specs.Prelude.{◌↔◌, List, ℕ};
ghost use Rattle.om_signs.specs.declared.sign.Sign.{Sign};
ghost use Rattle.om_laws.specs.Vectors.{SignVector, IsSupportedOn};
ghost use Rattle.om_laws.specs.Chirotope.{IsChirotope};
ghost use Rattle.om_laws.specs.Circuits.{IsCircuit, IsCocircuit};
ghost use Rattle.om_laws.specs.Axioms.{CircuitAxioms, CovectorAxioms};
ghost use Rattle.om_laws.specs.Covectors.{IsOrthogonalToAll, IsCovector, IsVector, IsMinimal};
ghost use Rattle.om_laws.specs.Compositions.{IsComposition, IsConformalComposition, HasConformingParts};

/// Circuits and cocircuits meet the circuit axioms; vectors and covectors meet the covector axioms.
pub fn axioms()
    ensures circuits { (E : List ℕ) (chi : List ℕ → Sign) → IsChirotope E chi → CircuitAxioms (IsCircuit E chi) }
    ensures cocircuits { (E : List ℕ) (chi : List ℕ → Sign) → IsChirotope E chi → CircuitAxioms (IsCocircuit chi) }
    ensures vectors { (E : List ℕ) (chi : List ℕ → Sign) → IsChirotope E chi → CovectorAxioms (IsVector E chi) }
    ensures covectors { (E : List ℕ) (chi : List ℕ → Sign) → IsChirotope E chi → CovectorAxioms (IsCovector E chi) }
{}

/// The covectors are the compositions of cocircuits, and the vectors those of circuits.
pub fn compositions()
    ensures covectors { (E : List ℕ) (chi : List ℕ → Sign) → IsChirotope E chi → (X : SignVector) → IsCovector E chi X
        ↔ IsComposition (IsCocircuit chi) X }
    ensures vectors { (E : List ℕ) (chi : List ℕ → Sign) → IsChirotope E chi → (X : SignVector) → IsVector E chi X
        ↔ IsComposition (IsCircuit E chi) X }
{}

/// Conformal decomposition: the covectors are the compositions of cocircuits that conform to them. The vectors are
/// the compositions of circuits that conform to them.
pub fn conformal_decomposition()
    ensures covectors { (E : List ℕ) (chi : List ℕ → Sign) → IsChirotope E chi → (X : SignVector) → IsCovector E chi X
        ↔ IsConformalComposition (IsCocircuit chi) X }
    ensures vectors { (E : List ℕ) (chi : List ℕ → Sign) → IsChirotope E chi → (X : SignVector) → IsVector E chi X
        ↔ IsConformalComposition (IsCircuit E chi) X }
{}

/// A sign vector is a covector exactly if, at each element of its support, some cocircuit that conforms to it has
/// its sign. The same holds of vectors and circuits.
pub fn conforming_parts()
    ensures covectors { (E : List ℕ) (chi : List ℕ → Sign) → IsChirotope E chi → (X : SignVector) → IsCovector E chi X
        ↔ HasConformingParts (IsCocircuit chi) X }
    ensures vectors { (E : List ℕ) (chi : List ℕ → Sign) → IsChirotope E chi → (X : SignVector) → IsVector E chi X
        ↔ HasConformingParts (IsCircuit E chi) X }
{}

/// The cocircuits are the nonzero covectors of minimal support, and the circuits are the nonzero vectors of minimal
/// support.
pub fn minimal_support()
    ensures cocircuits { (E : List ℕ) (chi : List ℕ → Sign) → IsChirotope E chi → (X : SignVector) → IsCocircuit chi X
        ↔ IsMinimal (IsCovector E chi) X }
    ensures circuits { (E : List ℕ) (chi : List ℕ → Sign) → IsChirotope E chi → (X : SignVector) → IsCircuit E chi X
        ↔ IsMinimal (IsVector E chi) X }
{}

/// Consider the sign vectors that are zero off the elements. The covectors are those that are orthogonal to all
/// vectors, and the vectors are those that are orthogonal to all covectors.
pub fn vectors_and_covectors()
    ensures covectors { (E : List ℕ) (chi : List ℕ → Sign) → IsChirotope E chi → (X : SignVector) → IsSupportedOn E X
        → IsCovector E chi X ↔ IsOrthogonalToAll (IsVector E chi) X }
    ensures vectors { (E : List ℕ) (chi : List ℕ → Sign) → IsChirotope E chi → (X : SignVector) → IsSupportedOn E X
        → IsVector E chi X ↔ IsOrthogonalToAll (IsCovector E chi) X }
{}
