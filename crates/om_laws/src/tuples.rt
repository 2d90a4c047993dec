//! The value on any list, for a map that is given on increasing lists.

ghost use Rattle.std.specs.Prelude.{◌≡◌, List, ℕ};
ghost use Rattle.om_signs.specs.declared.sign.Sign.{Sign};
ghost use Rattle.om_laws.specs.Members.{IsDistinct};
ghost use Rattle.om_laws.specs.Tuples.{IsAlternating, value};
ghost use Rattle.om_laws.specs.Sorting.{IsIncreasing};

/// The value of a map alternates: it is negated if two neighbours are exchanged.
pub fn value_alternates()
    ensures { (f : List ℕ → Sign) → IsAlternating (value f) }
{}

/// The value of a map is zero at each list in which an element occurs twice.
pub fn value_at_a_repeat()
    ensures { (f : List ℕ → Sign) (t : List ℕ) → (IsDistinct t → ⊥) → value f t ≡ Sign.Zero }
{}

/// On an increasing list the value is that of the given map.
pub fn value_when_increasing()
    ensures { (f : List ℕ → Sign) (t : List ℕ) → IsIncreasing t → value f t ≡ f t }
{}

/// The value is the only alternating map that agrees with the given map on increasing lists.
pub fn only_alternating_map()
    ensures { (f chi : List ℕ → Sign) → IsAlternating chi → ((t : List ℕ) → IsIncreasing t → chi t ≡ f t) → (t : List ℕ)
        → chi t ≡ value f t }
{}
