//! Bounds for the counts. Each law is a function that does nothing: its contract is the law.

ghost use Rattle.std.specs.Prelude.{◌≡◌, ◌+◌, ◌-◌, ◌*◌};
ghost use Rattle.om_chirotope.specs.Map.{SignMap};
ghost use Rattle.om_chirotope.specs.Chirotope.{IsChirotope};
ghost use Rattle.om_denotation.specs.Circuits.{IsCocircuitOfChirotope};
ghost use Rattle.om_denotation.specs.Covectors.{IsCovectorOfChirotope};
ghost use Rattle.om_denotation.specs.Listings.{HasMoreThan};

/// A chirotope of rank 3 on n elements has at most n (n - 1) cocircuits and at most 4 n (n - 1) + 3 covectors.
///
/// Source: Björner, Las Vergnas, Sturmfels, White and Ziegler, *Oriented Matroids*, chapters 3 and 4.
pub fn members_in_rank_three()
    ensures cocircuits { (m : SignMap) → IsChirotope m → m.rank ≡ 3
        → HasMoreThan (m.elements * (m.elements - 1)) (IsCocircuitOfChirotope m) → ⊥ }
    ensures covectors { (m : SignMap) → IsChirotope m → m.rank ≡ 3
        → HasMoreThan (4 * (m.elements * (m.elements - 1)) + 3) (IsCovectorOfChirotope m) → ⊥ }
{}
