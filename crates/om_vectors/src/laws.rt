//! Identities between triple products, for integer vectors of any size, and laws of their signs. Each law
//! is a function that does nothing: its contract is the law.

ghost use Rattle.std.specs.Prelude.{ℕ, ◌≡◌, ◌≢◌, ◌<◌, ◌≤◌, ◌↔◌, List, [], ◌∷◌, length, ℤ, ◌+ℤ◌, ◌-ℤ◌, ◌*ℤ◌, neg_ℤ, pos};
ghost use Rattle.om_subsets.specs.Lists.{IsWithin};
ghost use Rattle.om_chirotope.specs.Map.{SignMap, value_of};
ghost use Rattle.om_chirotope.specs.Chirotope.{IsChirotope};
ghost use Rattle.om_vectors.specs.WholeVectors.{WholeVector, triple_product, sign_of};
ghost use Rattle.om_vectors.specs.Realizations.{vector_at, signs_map, Realizes};
ghost use Rattle.om_vectors.specs.Balance.{total, HasSign};

use om_signs::Sign;

/// The triple product alternates: it is negated if two neighbours are exchanged, and 0 if two vectors are equal.
pub fn triple_product_alternates()
    ensures first { (a b c : WholeVector) → triple_product b a c ≡ neg_ℤ (triple_product a b c) }
    ensures last { (a b c : WholeVector) → triple_product a c b ≡ neg_ℤ (triple_product a b c) }
    ensures repeated { (a b : WholeVector) → triple_product a a b ≡ pos 0 }
{}

/// The four-term identity, for six vectors a, b, s, t, u, v: `[abs][tuv] - [abt][suv] + [abu][stv] - [abv][stu] = 0`,
/// where `[abc]` is the triple product.
///
/// Source: Björner, Las Vergnas, Sturmfels, White and Ziegler, *Oriented Matroids*, chapter 3 (Grassmann-Plücker
/// relations).
pub fn four_term_identity()
    ensures { (a b s t u v : WholeVector) → triple_product a b s *ℤ triple_product t u v -ℤ triple_product a b t
        *ℤ triple_product s u v +ℤ triple_product a b u *ℤ triple_product s t v -ℤ triple_product a b v
        *ℤ triple_product s t u ≡ pos 0 }
{}

/// The three-term identity, for five vectors a, b, c, d, e: `[abc][ade] - [abd][ace] + [abe][acd] = 0`, where `[abc]`
/// is the triple product.
///
/// Source: Björner, Las Vergnas, Sturmfels, White and Ziegler, *Oriented Matroids*, chapter 3 (Grassmann-Plücker
/// relations).
pub fn three_term_identity()
    ensures { (a b c d e : WholeVector) → triple_product a b c *ℤ triple_product a d e -ℤ triple_product a b d
        *ℤ triple_product a c e +ℤ triple_product a b e *ℤ triple_product a c d ≡ pos 0 }
{}

/// Finitely many integers whose sum is 0 have balanced signs: some number is positive exactly if some is
/// negative.
pub fn balanced_signs()
    ensures { (zs : List ℤ) → total zs ≡ pos 0 → HasSign zs Sign.Plus ↔ HasSign zs Sign.Minus }
{}

/// Whole-number vectors have a chirotope of rank 3, if some triple product isn't 0: the map of the signs of their
/// triple products satisfies the axioms.
pub fn signs_of_triple_products()
    ensures { (vs : List WholeVector) (a b c : ℕ) → 1 ≤ a → a < b → b < c → c ≤ length vs
        → triple_product (vector_at vs a) (vector_at vs b) (vector_at vs c) ≢ pos 0 → IsChirotope (signs_map vs) }
{}

/// Vectors realize the map of the signs of their triple products.
pub fn vectors_realize_their_signs()
    ensures { (vs : List WholeVector) → Realizes vs (signs_map vs) }
{}

/// If vectors realize a map, the value of the map at any three elements, in any order, is the sign of the triple
/// product of their vectors.
pub fn values_of_a_realized_map()
    ensures { (vs : List WholeVector) (m : SignMap) → Realizes vs m → (a b c : ℕ)
        → IsWithin 1 m.elements (a ∷ b ∷ c ∷ []) → value_of m (a ∷ b ∷ c ∷ [])
        ≡ sign_of (triple_product (vector_at vs a) (vector_at vs b) (vector_at vs c)) }
{}
