//! How two sets meet, and sets made from others.

ghost use Rattle.std.specs.Prelude.{◌≡◌, ◌↔◌, ◌≤◌, ◌<◌, ◌+◌, ℕ, [], ◌∷◌, length, map, cond, nat_lt, IsTrue};
ghost use Rattle.om_subsets.specs.Subsets.{choose, rank_of, IsSubsetFrom, IsMember, IsPartOf, AreApart, with_element};
ghost use Rattle.om_subsets.specs.Subsets.{without_element};

use super::subset::Subset;
use om_signs::MAX_PLACES;

impl Subset {
    /// The set of the elements x, y and z of 1 to n, in any order. `n` is at most [`MAX_PLACES`].
    pub fn triple(x: u8, y: u8, z: u8, n: u8) -> Subset
        requires small { n ≤ MAX_PLACES }
        requires x_low { 1 ≤ x }
        requires x_high { x ≤ n }
        requires y_low { 1 ≤ y }
        requires y_high { y ≤ n }
        requires z_low { 1 ≤ z }
        requires z_high { z ≤ n }
        ensures n { result.n ≡ n }
        ensures elements { result.elements ≡ with_element x (with_element y (z ∷ [])) }
        ensures lawful { IsSubsetFrom 1 n result.elements }
    {
        Subset::first(0, n).with(z).with(y).with(x)
    }

    /// The least element. The set isn't empty.
    pub fn least(self) -> u8
        requires { 0 < length self.elements }
        ensures low { 1 ≤ result }
        ensures high { result ≤ self.n }
        ensures first { self.elements ≡ result ∷ without_element result self.elements }
        ensures lawful { IsSubsetFrom 1 self.n self.elements }
    {
        let last = self.n();
        for e in 1..last {
            if self.has(e) {
                return e;
            }
        }
        last
    }

    /// The three elements of a set of size 3, in increasing order.
    pub fn three_elements(self) -> (u8, u8, u8)
        requires { length self.elements ≡ 3 }
        ensures elements { self.elements ≡ result.0 ∷ result.1 ∷ result.2 ∷ [] }
        ensures low { 1 ≤ result.0 }
        ensures second { result.0 < result.1 }
        ensures third { result.1 < result.2 }
        ensures high { result.2 ≤ self.n }
    {
        let a = self.least();
        let later = self.without(a);
        let b = later.least();
        let c = later.without(b).least();
        (a, b, c)
    }

    /// Whether each element of this set is an element of the other. Both sets have the same n.
    pub fn is_part_of(self, other: Subset) -> bool
        requires { other.n ≡ self.n }
        ensures { IsTrue result ↔ IsPartOf self.elements other.elements }
    {
        let mask = self.mask();
        mask & other.mask() == mask
    }

    /// Whether no element is in both sets. Both sets have the same n.
    pub fn is_apart_from(self, other: Subset) -> bool
        requires { other.n ≡ self.n }
        ensures { IsTrue result ↔ AreApart self.elements other.elements }
    {
        self.mask() & other.mask() == 0
    }

    /// The elements that are in both sets. Both sets have the same n.
    pub fn intersection(self, other: Subset) -> Subset
        requires { other.n ≡ self.n }
        ensures n { result.n ≡ self.n }
        ensures members { (e : ℕ) → IsMember e result.elements
            ↔ (IsMember e self.elements × IsMember e other.elements) }
        ensures lawful { IsSubsetFrom 1 result.n result.elements }
    {
        let n = self.n();
        Subset::from_mask(self.mask() & other.mask(), n)
    }

    /// The elements of 1 to n that aren't in the set.
    pub fn complement(self) -> Subset
        ensures n { result.n ≡ self.n }
        ensures members { (e : ℕ) → IsMember e result.elements
            ↔ ((1 ≤ e) × (e ≤ self.n) × (IsMember e self.elements → ⊥)) }
        ensures size { length result.elements + length self.elements ≡ self.n }
        ensures lawful { IsSubsetFrom 1 result.n result.elements }
    {
        Subset::from_mask((1u32 << self.n()) - 1 - self.mask(), self.n())
    }

    /// The set with its elements from e on moved up by one, so that it avoids e. It is taken from the elements 1 to
    /// n + 1. `e` is from 1 to n + 1, and n is below [`MAX_PLACES`].
    pub fn skipping(self, e: u8) -> Subset
        requires low { 1 ≤ e }
        requires high { e ≤ self.n + 1 }
        requires room { self.n < MAX_PLACES }
        ensures n { result.n ≡ self.n + 1 }
        ensures elements { result.elements ≡ map (λ x. cond (nat_lt x e) x (x + 1)) self.elements }
        ensures size { length result.elements ≡ length self.elements }
        ensures lawful { IsSubsetFrom 1 result.n result.elements }
    {
        let before = self.mask() & ((1u32 << (e - 1)) - 1);
        let behind = self.mask() >> (e - 1) << e;
        Subset::from_mask(before | behind, self.n() + 1)
    }

    /// The same set, taken from the elements 1 to n - 1. n is at least 1, and isn't an element of the set.
    pub fn before_last(self) -> Subset
        requires some { 1 ≤ self.n }
        requires off { IsMember self.n self.elements → ⊥ }
        ensures n { result.n + 1 ≡ self.n }
        ensures elements { result.elements ≡ self.elements }
        ensures lawful { IsSubsetFrom 1 result.n result.elements }
    {
        Subset::from_mask(self.mask(), self.n() - 1)
    }

    /// The next set of this size in lexicographic order, or this set if it is the last. It is the step of a walk
    /// over all sets of a size.
    pub fn following(self) -> Subset
        ensures n { result.n ≡ self.n }
        ensures size { length result.elements ≡ length self.elements }
        ensures place { rank_of self.n self.elements + 1 < choose self.n (length self.elements)
            → rank_of result.n result.elements ≡ rank_of self.n self.elements + 1 }
        ensures last { rank_of self.n self.elements + 1 ≡ choose self.n (length self.elements) → result ≡ self }
        ensures lawful { IsSubsetFrom 1 result.n result.elements }
    {
        match self.next() {
            None => self,
            Some(next) => next,
        }
    }
}
