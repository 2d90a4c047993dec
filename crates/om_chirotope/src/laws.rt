//! What the definitions in the crate's contracts mean. Each law is a function that does nothing: its contract is
//! the law.

ghost use Rattle.std.specs.Prelude.{ℕ, ◌≡◌, ◌+◌, ◌-◌, ◌*◌, ◌<◌, ◌≤◌, ◌↔◌, List, [], ◌∷◌, ◌++◌, length, slice_index};
ghost use Rattle.std.specs.List.{remove};
ghost use Rattle.om_signs.specs.Sign.{product};
ghost use Rattle.om_signs.specs.SignVec.{at_element};
ghost use Rattle.om_subsets.specs.Subsets.{choose, IsSubsetFrom, IsMember};
ghost use Rattle.om_chirotope.specs.Map.{SignMap, IsMap, chi_of, value_of, circuit_vector, cocircuit_vector};
ghost use Rattle.om_chirotope.specs.Map.{parity_sign};
ghost use Rattle.om_chirotope.specs.Chirotope.{IsChirotope};
ghost use Rattle.om_chirotope.specs.ThreeTerm.{MeetsThreeTermTest};
ghost use Rattle.om_laws.specs.Chirotope as theory;
ghost use Rattle.om_laws.specs.Chirotope.{elements_to};
ghost use Rattle.om_laws.specs.Sorting.{on_tuples};

use om_signs::{MAX_ELEMENTS, MAX_VALUES, Sign};

/// The vector V of an increasing list S has, at the i-th element of S counted from 1, the value of S without this
/// element times (-1)^i. Off S it is 0. The vector U of an increasing list A has at e the value of A followed by e.
/// On increasing lists the value is the given sign.
pub fn vectors_of_a_map()
    ensures circuit { (m : SignMap) (s : List ℕ) (i : ℕ) → IsSubsetFrom 1 m.elements s → i < length s
        → at_element (circuit_vector m s) (slice_index s i) ≡ product (parity_sign (i + 1)) (value_of m (remove s i)) }
    ensures off { (m : SignMap) (s : List ℕ) (e : ℕ) → 1 ≤ e → e ≤ m.elements → (IsMember e s → ⊥)
        → at_element (circuit_vector m s) e ≡ Sign.Zero }
    ensures cocircuit { (m : SignMap) (a : List ℕ) (e : ℕ) → 1 ≤ e → e ≤ m.elements
        → at_element (cocircuit_vector m a) e ≡ value_of m (a ++ e ∷ []) }
    ensures lengths { (m : SignMap) (xs : List ℕ) → (length (circuit_vector m xs) ≡ m.elements)
        × (length (cocircuit_vector m xs) ≡ m.elements) }
    ensures value { (m : SignMap) (xs : List ℕ) → IsSubsetFrom 1 m.elements xs → value_of m xs ≡ chi_of m xs }
{}

/// A map satisfies the axioms exactly if it is a chirotope in the sense of om_laws. Take its values on the tuples of as
/// many elements as the rank, and 0 on all other lists. These make an alternating map with a nonzero value that has
/// the relations of all lists.
pub fn axioms_and_relations()
    ensures { (m : SignMap) → IsMap m → IsChirotope m
        ↔ theory.IsChirotope (elements_to m.elements) (on_tuples m.elements m.rank (chi_of m)) }
{}

/// The three-term test: a map satisfies the axioms exactly if some value isn't 0, bases have exchange, and the
/// three-term relations hold. So the relations of lists of any sizes follow from those of lists that differ in few
/// elements.
///
/// Source: Björner, Las Vergnas, Sturmfels, White and Ziegler, *Oriented Matroids*, chapter 3.
pub fn three_term_test()
    ensures { (m : SignMap) → MeetsThreeTermTest m ↔ IsChirotope m }
{}

/// Of the maps that a document can hold, those of rank 8 on 16 elements have the most pairs of a set S and a set A:
/// 130,873,600.
pub fn most_pairs()
    ensures most { (n r : ℕ) → n ≤ MAX_ELEMENTS → 1 ≤ r → choose n r ≤ MAX_VALUES
        → choose n (r + 1) * choose n (r - 1) ≤ 130873600 }
    ensures values { choose 16 8 ≡ MAX_VALUES }
    ensures reached { choose 16 (8 + 1) * choose 16 (8 - 1) ≡ 130873600 }
{}
