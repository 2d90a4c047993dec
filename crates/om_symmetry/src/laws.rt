//! The laws of signed permutations and of their action on maps. Each function is a theorem: it has an empty body, and
//! its contract is the statement.

ghost use Rattle.std.specs.Prelude.{ℕ, ◌≡◌, ◌≢◌, ◌%◌, ◌↔◌, Bool, List, length, map};
ghost use Rattle.om_signs.specs.Sign.{product};
ghost use Rattle.om_subsets.specs.Subsets.{IsSubsetFrom};
ghost use Rattle.om_laws.specs.Reorientation.{reoriented, turning, signs_product};
ghost use Rattle.om_laws.specs.Sorting.{IsElement, Each, IsTuple};
ghost use Rattle.om_laws.specs.Tuples.{sorted};
ghost use Rattle.om_chirotope.specs.Map.{SignMap, IsMap, chi_of, value_of, negated};
ghost use Rattle.om_chirotope.specs.Chirotope.{IsChirotope};
ghost use Rattle.om_chirotope.specs.ThreeTerm.{IsBasis};
ghost use Rattle.om_denotation.specs.Maps.{map_by};
ghost use Rattle.om_matroid.specs.Bases.{IsIndependent, IsLoop, IsColoop};
ghost use Rattle.om_symmetry.specs.declared.signed_element.SignedElement.{SignedElement};
ghost use Rattle.om_symmetry.specs.Permutations.{IsSignedPermutation, element_at, is_negated_at, acted, followed_by};
ghost use Rattle.om_symmetry.specs.Permutations.{negated_on, identity, all_negated, AreInverse, AreIsomorphic};

/// The value of a tuple in the image of a map is the value of the tuple of the old elements, negated once for each
/// negative among them.
///
/// Source: Björner, Las Vergnas, Sturmfels, White and Ziegler, *Oriented Matroids*, chapter 3.
pub fn values_of_an_image()
    ensures { (m : SignMap) (w : List SignedElement) (t : List ℕ) → IsSignedPermutation m.elements w
        → IsTuple m.elements m.rank t → value_of (acted w m) t
        ≡ product (signs_product (turning (is_negated_at w)) t) (value_of m (map (element_at w) t)) }
{}

/// Signed permutations of 1 to n are a group: products and the identity are signed permutations, products associate,
/// and each signed permutation has an inverse.
pub fn group_of_signed_permutations()
    ensures product { (n : ℕ) (w v : List SignedElement) → IsSignedPermutation n w → IsSignedPermutation n v
        → IsSignedPermutation n (followed_by w v) }
    ensures identity { (n : ℕ) → IsSignedPermutation n (identity n) }
    ensures neutral { (n : ℕ) (w : List SignedElement) → IsSignedPermutation n w
        → (followed_by w (identity n) ≡ w) × (followed_by (identity n) w ≡ w) }
    ensures associative { (w v u : List SignedElement)
        → followed_by (followed_by w v) u ≡ followed_by w (followed_by v u) }
    ensures inverse { (n : ℕ) (w : List SignedElement) → IsSignedPermutation n w
        → (v : List SignedElement) × IsSignedPermutation n v × AreInverse w v }
{}

/// The group of signed permutations acts on maps: a product acts as one signed permutation after the other, and the
/// identity leaves each map as it is.
pub fn action_on_maps()
    ensures product { (m : SignMap) (w v : List SignedElement) → IsSignedPermutation m.elements w
        → IsSignedPermutation m.elements v → acted (followed_by w v) m ≡ acted v (acted w m) }
    ensures identity { (m : SignMap) → IsMap m → acted (identity m.elements) m ≡ m }
    ensures inverse { (m : SignMap) (w v : List SignedElement) → IsMap m → IsSignedPermutation m.elements w
        → IsSignedPermutation m.elements v → AreInverse w v → acted v (acted w m) ≡ m }
{}

/// Being isomorphic is an equivalence of maps.
pub fn isomorphism_is_an_equivalence()
    ensures reflexive { (m : SignMap) → IsMap m → AreIsomorphic m m }
    ensures symmetric { (m k : SignMap) → IsMap m → AreIsomorphic m k → AreIsomorphic k m }
    ensures transitive { (m k j : SignMap) → AreIsomorphic m k → AreIsomorphic k j → AreIsomorphic m j }
{}

/// The image of a chirotope is a chirotope.
///
/// Source: Björner, Las Vergnas, Sturmfels, White and Ziegler, *Oriented Matroids*, chapter 3.
pub fn images_of_chirotopes()
    ensures { (m : SignMap) (w : List SignedElement) → IsSignedPermutation m.elements w → IsChirotope m
        → IsChirotope (acted w m) }
{}

/// The negation of a set of elements acts as the reorientation of the set. The negation of all elements takes a map of
/// odd rank to its negative, so the two are isomorphic. It leaves a map of even rank as it is.
///
/// Source: Björner, Las Vergnas, Sturmfels, White and Ziegler, *Oriented Matroids*, chapter 3.
pub fn reorientations_and_negatives()
    ensures permutation { (n : ℕ) (set : ℕ → Bool) → IsSignedPermutation n (negated_on n set) }
    ensures reorientation { (m : SignMap) (set : ℕ → Bool)
        → acted (negated_on m.elements set) m ≡ map_by m.rank m.elements (reoriented set (chi_of m)) }
    ensures odd { (m : SignMap) → IsMap m → m.rank % 2 ≡ 1 → acted (all_negated m.elements) m ≡ negated m }
    ensures even { (m : SignMap) → IsMap m → m.rank % 2 ≢ 1 → acted (all_negated m.elements) m ≡ m }
    ensures isomorphic { (m : SignMap) → IsMap m → m.rank % 2 ≡ 1 → AreIsomorphic m (negated m) }
{}

/// A list is a basis of the image exactly if the old elements, sorted, are a basis of the map. Loops and coloops of the
/// image are those elements whose old ones are, and so with independent sets.
///
/// Source: Björner, Las Vergnas, Sturmfels, White and Ziegler, *Oriented Matroids*, chapter 3.
pub fn bases_of_an_image()
    ensures bases { (m : SignMap) (w : List SignedElement) (b : List ℕ) → IsSignedPermutation m.elements w
        → IsSubsetFrom 1 m.elements b → length b ≡ m.rank
        → IsBasis (acted w m) b ↔ IsBasis m (sorted (map (element_at w) b)) }
    ensures independent { (m : SignMap) (w : List SignedElement) (s : List ℕ) → IsSignedPermutation m.elements w
        → Each (IsElement m.elements) s → IsIndependent (acted w m) s ↔ IsIndependent m (map (element_at w) s) }
    ensures loops { (m : SignMap) (w : List SignedElement) (e : ℕ) → IsSignedPermutation m.elements w
        → IsElement m.elements e → IsLoop (acted w m) e ↔ IsLoop m (element_at w e) }
    ensures coloops { (m : SignMap) (w : List SignedElement) (e : ℕ) → IsSignedPermutation m.elements w
        → IsElement m.elements e → IsColoop (acted w m) e ↔ IsColoop m (element_at w e) }
{}
