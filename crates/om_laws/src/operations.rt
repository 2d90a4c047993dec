//! Reorientation and negation of chirotopes.

ghost use Rattle.std.specs.Prelude.{◌↔◌, Bool, List, ℕ};
ghost use Rattle.om_signs.specs.declared.sign.Sign.{Sign};
ghost use Rattle.om_laws.specs.Vectors.{SignVector};
ghost use Rattle.om_laws.specs.Chirotope.{IsChirotope};
ghost use Rattle.om_laws.specs.Circuits.{IsCircuit, IsCocircuit};
ghost use Rattle.om_laws.specs.Covectors.{IsCovector};
ghost use Rattle.om_laws.specs.Reorientation.{reoriented, turned, negative};

/// A reorientation of a chirotope is a chirotope. Its circuits, cocircuits and covectors are those of the chirotope
/// with their signs on the set negated.
pub fn reorientation()
    ensures chirotope { (set : ℕ → Bool) (E : List ℕ) (chi : List ℕ → Sign) → IsChirotope E chi
        → IsChirotope E (reoriented set chi) }
    ensures circuits { (set : ℕ → Bool) (E : List ℕ) (chi : List ℕ → Sign) (X : SignVector)
        → IsCircuit E (reoriented set chi) X ↔ IsCircuit E chi (turned set X) }
    ensures cocircuits { (set : ℕ → Bool) (chi : List ℕ → Sign) (X : SignVector) → IsCocircuit (reoriented set chi) X
        ↔ IsCocircuit chi (turned set X) }
    ensures covectors { (set : ℕ → Bool) (E : List ℕ) (chi : List ℕ → Sign) (X : SignVector)
        → IsCovector E (reoriented set chi) X ↔ IsCovector E chi (turned set X) }
{}

/// The negative of a chirotope is a chirotope with the same circuits, cocircuits and covectors.
pub fn negation()
    ensures chirotope { (E : List ℕ) (chi : List ℕ → Sign) → IsChirotope E chi → IsChirotope E (negative chi) }
    ensures circuits { (E : List ℕ) (chi : List ℕ → Sign) (X : SignVector) → IsCircuit E (negative chi) X
        ↔ IsCircuit E chi X }
    ensures cocircuits { (chi : List ℕ → Sign) (X : SignVector) → IsCocircuit (negative chi) X ↔ IsCocircuit chi X }
    ensures covectors { (E : List ℕ) (chi : List ℕ → Sign) (X : SignVector) → IsCovector E (negative chi) X
        ↔ IsCovector E chi X }
{}
