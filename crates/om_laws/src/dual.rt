//! The dual of a chirotope.

ghost use Rattle.std.specs.Prelude.{◌≡◌, ◌↔◌, ◌⊎◌, ◌-◌, ◌*◌, ◌≤◌, List, ℕ, length};
ghost use Rattle.om_signs.specs.declared.sign.Sign.{Sign};
ghost use Rattle.om_laws.specs.Members.{IsDistinct, AreAmong};
ghost use Rattle.om_laws.specs.Vectors.{SignVector, IsSupportedOn};
ghost use Rattle.om_laws.specs.Chirotope.{IsChirotope, elements_to};
ghost use Rattle.om_laws.specs.Circuits.{IsCircuit, IsCocircuit};
ghost use Rattle.om_laws.specs.Covectors.{IsOrthogonalToAll, IsCovector, IsVector};
ghost use Rattle.om_laws.specs.Dual.{complement, dual_map, dual_on_increasing};
ghost use Rattle.om_laws.specs.Signs.{IsNonzero, negated_times};
ghost use Rattle.om_laws.specs.Sorting.{on_tuples};
ghost use Rattle.om_laws.specs.Reorientation.{negative};

/// The dual of a chirotope is a chirotope. Its circuits are the cocircuits, its cocircuits are the circuits, and
/// its covectors are the vectors. These are the sign vectors on the elements that are orthogonal to all covectors.
pub fn duality()
    ensures chirotope { (E : List ℕ) → IsDistinct E → (chi : List ℕ → Sign) → IsChirotope E chi
        → IsChirotope E (dual_map E chi) }
    ensures circuits { (E : List ℕ) → IsDistinct E → (chi : List ℕ → Sign) → IsChirotope E chi → (X : SignVector)
        → IsCircuit E (dual_map E chi) X ↔ IsCocircuit chi X }
    ensures cocircuits { (E : List ℕ) → IsDistinct E → (chi : List ℕ → Sign) → IsChirotope E chi → (X : SignVector)
        → IsCocircuit (dual_map E chi) X ↔ IsCircuit E chi X }
    ensures covectors { (E : List ℕ) → IsDistinct E → (chi : List ℕ → Sign) → IsChirotope E chi → (X : SignVector)
        → IsCovector E (dual_map E chi) X ↔ IsVector E chi X }
    ensures orthogonal { (E : List ℕ) → IsDistinct E → (chi : List ℕ → Sign) → IsChirotope E chi → (X : SignVector)
        → IsSupportedOn E X → IsCovector E (dual_map E chi) X ↔ IsOrthogonalToAll (IsCovector E chi) X }
{}

/// Take a map of rank r on the elements 1 to n that is given on increasing lists. Its dual is the map of rank n - r
/// whose value on an increasing list is that of the complement, times the sign of a permutation. This permutation
/// sorts the list followed by its complement.
pub fn dual_on_increasing_lists()
    ensures { (n r : ℕ) (f : List ℕ → Sign) → r ≤ n → (a : List ℕ)
        → dual_map (elements_to n) (on_tuples n r f) a ≡ on_tuples n (n - r) (dual_on_increasing n f) a }
{}

/// The dual of the dual of a chirotope of rank r is the chirotope or its negative. On each tuple without repeats,
/// the value is negated once for each pair of an element of the tuple and an element of its complement.
pub fn double_dual()
    ensures same { (E : List ℕ) → IsDistinct E → (chi : List ℕ → Sign) → IsChirotope E chi → (r : ℕ)
        → ((t : List ℕ) → IsNonzero (chi t) → length t ≡ r) → ((a : List ℕ) → dual_map E (dual_map E chi) a ≡ chi a)
        ⊎ ((a : List ℕ) → dual_map E (dual_map E chi) a ≡ negative chi a) }
    ensures sign { (E : List ℕ) → IsDistinct E → (chi : List ℕ → Sign) → IsChirotope E chi → (a : List ℕ) → IsDistinct a
        → AreAmong E a → dual_map E (dual_map E chi) a ≡ negated_times (length a * length (complement E a)) (chi a) }
{}
