//! The covectors that a chirotope, its circuits and its cocircuits denote, and the increasing tuples that determine
//! them.

ghost use Rattle.std.specs.Prelude.{◌≡◌, ◌↔◌, ◌⊎◌, List, ℕ};
ghost use Rattle.om_signs.specs.declared.sign.Sign.{Sign};
ghost use Rattle.om_laws.specs.Vectors.{SignVector, IsSupportedOn};
ghost use Rattle.om_laws.specs.Tuples.{IsAlternating};
ghost use Rattle.om_laws.specs.Sorting.{on_tuples};
ghost use Rattle.om_laws.specs.Chirotope.{IsChirotope, elements_to};
ghost use Rattle.om_laws.specs.Circuits.{IsCircuit, IsCocircuit};
ghost use Rattle.om_laws.specs.Covectors.{IsOrthogonalToAll, IsCovector};
ghost use Rattle.om_laws.specs.Reorientation.{negative};
ghost use Rattle.om_laws.specs.Compositions.{HasConformingParts};
ghost use Rattle.om_laws.specs.Denotations.{IsAroundIncreasing, IsAlongIncreasing, IsOrthogonalToTuples, IsAroundTuple};
ghost use Rattle.om_laws.specs.Denotations.{IsAlongTuple, IsOrthogonalInRank};

/// The denotations agree. Consider the sign vectors that are zero off the elements. The chirotope denotes those
/// that are orthogonal to the vectors around all increasing tuples. The circuits denote those that are orthogonal
/// to all circuits. The cocircuits denote those that have, at each element of their support, the sign of some
/// cocircuit that conforms to them. All three are the same.
pub fn denotations()
    ensures circuits { (E : List ℕ) (chi : List ℕ → Sign) → IsChirotope E chi → (X : SignVector) → IsSupportedOn E X
        → IsOrthogonalToTuples E chi X ↔ IsOrthogonalToAll (IsCircuit E chi) X }
    ensures cocircuits { (E : List ℕ) (chi : List ℕ → Sign) → IsChirotope E chi → (X : SignVector) → IsSupportedOn E X
        → IsOrthogonalToTuples E chi X ↔ HasConformingParts (IsCocircuit chi) X }
{}

/// Increasing tuples are enough for an alternating map. The circuits and the cocircuits are, up to sign, the
/// nonzero vectors around and along increasing tuples. A sign vector is orthogonal to all circuits exactly if it is
/// orthogonal to the vectors around increasing tuples.
pub fn increasing_tuples_are_enough()
    ensures circuits { (E : List ℕ) (chi : List ℕ → Sign) → IsAlternating chi → (X : SignVector) → IsCircuit E chi X
        ↔ IsAroundIncreasing E chi X }
    ensures cocircuits { (chi : List ℕ → Sign) → IsAlternating chi → (X : SignVector) → IsCocircuit chi X
        ↔ IsAlongIncreasing chi X }
    ensures covectors { (E : List ℕ) (chi : List ℕ → Sign) → IsAlternating chi → (X : SignVector)
        → IsOrthogonalToTuples E chi X ↔ IsOrthogonalToAll (IsCircuit E chi) X }
{}

/// Take a map of rank r on the elements 1 to n that is given on increasing lists. The increasing tuples of r + 1
/// elements are enough for the circuits and for orthogonality to all circuits, and those of r - 1 elements for the
/// cocircuits.
pub fn tuples_of_the_rank_are_enough()
    ensures circuits { (n r : ℕ) (f : List ℕ → Sign) (X : SignVector) → IsCircuit (elements_to n) (on_tuples n r f) X
        ↔ IsAroundTuple n r f X }
    ensures cocircuits { (n r : ℕ) (f : List ℕ → Sign) (X : SignVector) → IsCocircuit (on_tuples n r f) X
        ↔ IsAlongTuple n r f X }
    ensures covectors { (n r : ℕ) (f : List ℕ → Sign) (X : SignVector) → IsOrthogonalInRank n r f X
        ↔ IsOrthogonalToAll (IsCircuit (elements_to n) (on_tuples n r f)) X }
{}

/// Two chirotopes with the same covectors are equal or negatives of each other.
pub fn uniqueness()
    ensures { (E : List ℕ) (chi psi : List ℕ → Sign) → IsChirotope E chi → IsChirotope E psi
        → ((X : SignVector) → IsCovector E chi X ↔ IsCovector E psi X) → ((t : List ℕ) → chi t ≡ psi t)
        ⊎ ((t : List ℕ) → chi t ≡ negative psi t) }
{}
