//! Laws of paintings and of acyclic oriented matroids. Each function is a theorem: it has an empty body, and its
//! contract is the statement.

ghost use Rattle.std.specs.Prelude.{ℕ, ◌≡◌, ◌≤◌, ◌↔◌, List};
ghost use Rattle.om_signs.specs.declared.sign.Sign.{Sign};
ghost use Rattle.om_laws.specs.Colours.{Colour};
ghost use Rattle.om_chirotope.specs.Map.{SignMap};
ghost use Rattle.om_chirotope.specs.Chirotope.{IsChirotope};
ghost use Rattle.om_denotation.specs.Covectors.{IsCovectorOfChirotope};
ghost use Rattle.om_denotation.specs.Painting.{IsFittingCocircuit};
ghost use Rattle.om_oriented.specs.declared.painted.Painted.{Painted};
ghost use Rattle.om_paint.specs.Paintings.{IsPaintingOf};
ghost use Rattle.om_paint.specs.Hulls.{all_plus, IsPositiveCircuit, IsExtreme, green_alone};

/// A map, a colouring and an element have at most one painting: one sign vector, which is a circuit or a cocircuit.
/// It depends only on the colours of the elements of the map. So the item of an element in a hull is the result of
/// `paint` with the element green and all others red.
pub fn one_painting()
    ensures one { (m : SignMap) (colour : ℕ → Colour) (e : ℕ) (x y : Painted)
        → IsPaintingOf m colour e x → IsPaintingOf m colour e y → x ≡ y }
    ensures colours { (m : SignMap) (colour other : ℕ → Colour)
        → ((f : ℕ) → 1 ≤ f → f ≤ m.elements → colour f ≡ other f)
        → (e : ℕ) (x : Painted) → IsPaintingOf m colour e x → IsPaintingOf m other e x }
{}

/// A chirotope is acyclic exactly if each of its circuits has a minus.
///
/// Source: Björner, Las Vergnas, Sturmfels, White and Ziegler, *Oriented Matroids*, chapter 3.
pub fn acyclic_chirotopes()
    ensures { (m : SignMap) → IsChirotope m
        → IsCovectorOfChirotope m (all_plus m.elements) ↔ ((X : List Sign) → IsPositiveCircuit m X → ⊥) }
{}

/// An element is extreme exactly if some cocircuit is minus at it and nowhere else. Such a cocircuit fits with the
/// element green and all others red.
///
/// Source: Björner, Las Vergnas, Sturmfels, White and Ziegler, *Oriented Matroids*, chapter 3.
pub fn extreme_elements()
    ensures { (m : SignMap) → IsChirotope m → (e : ℕ) → 1 ≤ e → e ≤ m.elements
        → IsExtreme m e ↔ ((Y : List Sign) × IsFittingCocircuit m (green_alone e) e Y) }
{}
