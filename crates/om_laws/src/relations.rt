//! The relations of a chirotope: on increasing lists, and for all lists.

ghost use Rattle.std.specs.Prelude.{◌≡◌, ◌↔◌, ◌+◌, List, ℕ, ◌∷◌, ◌++◌, length};
ghost use Rattle.om_signs.specs.declared.sign.Sign.{Sign};
ghost use Rattle.om_laws.specs.Signs.{IsNonzero, negated_times};
ghost use Rattle.om_laws.specs.Members.{IsMember, IsDistinct};
ghost use Rattle.om_laws.specs.Vectors.{SignVector, Orthogonal};
ghost use Rattle.om_laws.specs.Tuples.{IsAlternating, value};
ghost use Rattle.om_laws.specs.Bases.{HasExchange, HasIncreasingExchange};
ghost use Rattle.om_laws.specs.ThreeTerm.{HasThreeTermRelations, HasIncreasingThreeTermRelations};
ghost use Rattle.om_laws.specs.Sorting.{IsIncreasing, IsTuple, on_tuples};
ghost use Rattle.om_laws.specs.Relations.{around, IsBalanced, HasIncreasingRelations, HasRelations};
ghost use Rattle.om_laws.specs.Chirotope.{IsChirotope, elements_to};

/// The vector around a list without repeats. At the i-th element of the list, counted from 1, it is the value of
/// the other elements times the i-th power of -1. Off the list it is zero.
pub fn around_a_list()
    ensures at { (chi : List ℕ → Sign) (u : List ℕ) (e : ℕ) (v : List ℕ) → IsDistinct (u ++ e ∷ v)
        → around chi (u ++ e ∷ v) e ≡ negated_times (length u + 1) (chi (u ++ v)) }
    ensures off { (chi : List ℕ → Sign) (t : List ℕ) (e : ℕ) → (IsMember e t → ⊥) → around chi t e ≡ Sign.Zero }
{}

/// The relation of a list without repeats and a sign vector says that the vector around the list is orthogonal to
/// the sign vector.
pub fn balance_is_orthogonality()
    ensures { (chi : List ℕ → Sign) (s : List ℕ) (X : SignVector) → IsDistinct s → IsBalanced chi s X
        ↔ Orthogonal (around chi s) X }
{}

/// A map has the relations of all lists exactly if it has those of increasing lists.
pub fn relations_of_increasing_lists()
    ensures { (n r : ℕ) (f : List ℕ → Sign) → HasIncreasingRelations n r (value f) ↔ HasRelations (on_tuples n r f) }
{}

/// The relations of increasing lists and one nonzero value make a chirotope: an alternating map on all lists with
/// the relations of all lists.
pub fn chirotope_of_increasing_lists()
    ensures { (n r : ℕ) (f : List ℕ → Sign) → HasIncreasingRelations n r (value f) → (t : List ℕ) → IsTuple n r t
        → IsIncreasing t → IsNonzero (f t) → IsChirotope (elements_to n) (on_tuples n r f) }
{}

/// Exchange of bases and the three-term relations give the relations of all lists, in every rank.
pub fn three_term_relations()
    ensures { (chi : List ℕ → Sign) → IsAlternating chi → HasExchange chi → HasThreeTermRelations chi
        → HasRelations chi }
{}

/// The three-term relations of increasing tuples and increasing elements give those of tuples and elements in any
/// order.
pub fn three_term_relations_in_order()
    ensures { (chi : List ℕ → Sign) → IsAlternating chi → HasIncreasingThreeTermRelations chi
        → HasThreeTermRelations chi }
{}

/// The relations of all lists include the three-term relations.
pub fn three_terms_of_all_lists()
    ensures { (chi : List ℕ → Sign) → IsAlternating chi → HasRelations chi → HasThreeTermRelations chi }
{}

/// Bases have exchange exactly if increasing lists do: if an increasing list and an element make a basis, some
/// element of each increasing basis makes one with the list.
pub fn exchange_in_order()
    ensures { (chi : List ℕ → Sign) → IsAlternating chi → HasIncreasingExchange chi ↔ HasExchange chi }
{}
