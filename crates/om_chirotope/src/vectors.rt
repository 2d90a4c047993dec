//! The signs of sets under a map, and its two kinds of sign vectors.

ghost use Rattle.std.specs.Prelude.{◌≡◌, ◌+◌, ◌≤◌, length};
ghost use Rattle.om_subsets.specs.Subsets.{rank_of, IsMember, IsSubsetFrom, with_element};
ghost use Rattle.om_subsets.specs.Lists.{IsWithin};
ghost use Rattle.om_laws.specs.Tuples.{before_sign};
ghost use Rattle.om_laws.specs.Relations.{around, along};
ghost use Rattle.om_chirotope.specs.Map.{chi_of, value_of, circuit_vector, cocircuit_vector};

use super::walking::places_with;
use super::whole_map::WholeMap;
use om_signs::{Sign, SignVec};
use om_subsets::Subset;

impl WholeMap<'_> {
    /// The sign of a set of as many elements as the rank.
    pub fn sign_at(&self, s: Subset) -> Sign
        requires n { s.n ≡ self.now.elements }
        requires size { length s.elements ≡ self.now.rank }
        ensures place { result ≡ chi_of self.now s.elements }
        ensures value { result ≡ value_of self.now s.elements }
        ensures list { IsSubsetFrom 1 s.n s.elements }
    {
        self.sign_of(s, s.rank())
    }

    /// The sign of a set of as many elements as the rank, found by the place of the set.
    pub(crate) fn sign_of(&self, s: Subset, place: u32) -> Sign
        requires n { s.n ≡ self.now.elements }
        requires size { length s.elements ≡ self.now.rank }
        requires place { place ≡ rank_of s.n s.elements }
        requires list { IsSubsetFrom 1 s.n s.elements }
        ensures place { result ≡ chi_of self.now s.elements }
        ensures value { result ≡ value_of self.now s.elements }
    {
        self.raw.signs.at(place as usize)
    }

    /// The sign at e of the vector V of s.
    fn circuit_sign(&self, s: Subset, e: u8) -> Sign
        requires low { 1 ≤ e }
        requires high { e ≤ self.now.elements }
        requires n { s.n ≡ self.now.elements }
        requires size { length s.elements ≡ self.now.rank + 1 }
        ensures { result ≡ around (value_of self.now) s.elements e }
    {
        let size = s.size();
        if !s.has(e) {
            return Sign::Zero;
        }
        let sign = self.sign_at(s.without(e));
        if (size % 2 == 1) == s.odd_after(e) {
            sign
        } else {
            sign.neg()
        }
    }

    /// The vector V of a set of one element more than the rank.
    pub(crate) fn circuit_of(&self, s: Subset) -> SignVec
        requires n { s.n ≡ self.now.elements }
        requires size { length s.elements ≡ self.now.rank + 1 }
        ensures { result ≡ circuit_vector self.now s.elements }
    {
        let mut vector = SignVec::zero(self.raw.elements);
        for e in 1..self.raw.elements + 1 {
            vector = vector.set(e, self.circuit_sign(s, e));
        }
        vector
    }

    /// The sign at e of the vector U of a, found by the place of the set of a and e.
    fn cocircuit_sign(&self, a: Subset, e: u8, place: u32) -> Sign
        requires low { 1 ≤ e }
        requires high { e ≤ self.now.elements }
        requires n { a.n ≡ self.now.elements }
        requires size { length a.elements + 1 ≡ self.now.rank }
        requires list { IsSubsetFrom 1 a.n a.elements }
        requires place { (IsMember e a.elements → ⊥) → place ≡ rank_of a.n (with_element e a.elements) }
        ensures { result ≡ along (value_of self.now) a.elements e }
    {
        if a.has(e) {
            return Sign::Zero;
        }
        let sign = self.sign_of(a.with(e), place);
        if a.odd_after(e) { sign.neg() } else { sign }
    }

    /// The vector U of a set of one element less than the rank.
    pub(crate) fn cocircuit_of(&self, a: Subset) -> SignVec
        requires n { a.n ≡ self.now.elements }
        requires size { length a.elements + 1 ≡ self.now.rank }
        ensures { result ≡ cocircuit_vector self.now a.elements }
    {
        let places = places_with(a);
        let mut vector = SignVec::zero(self.raw.elements);
        for e in 1..self.raw.elements + 1 {
            vector = vector.set(e, self.cocircuit_sign(a, e, places[e as usize - 1]));
        }
        vector
    }

    /// The value of a tuple of as many elements as the rank.
    pub(crate) fn value_at(&self, tuple: &[u8]) -> Sign
        requires size { length tuple.now ≡ self.now.rank }
        requires within { IsWithin 1 self.now.elements tuple.now }
        ensures { result ≡ value_of self.now tuple.now }
    {
        let mut set = Subset::first(0, self.raw.elements);
        let mut sign = Sign::Plus;
        for e in tuple.iter().rev() {
            if set.has(*e) {
                return Sign::Zero;
            }
            sign = sorting_sign(set, *e).times(sign);
            set = set.with(*e);
        }
        sign.times(self.sign_at(set))
    }
}

/// The sign of the permutation that moves e from the front over the smaller elements of the set.
fn sorting_sign(set: Subset, e: u8) -> Sign
    requires low { 1 ≤ e }
    requires high { e ≤ set.n }
    requires new { IsMember e set.elements → ⊥ }
    ensures { result ≡ before_sign e set.elements }
{
    let size = set.size();
    if (size % 2 == 1) == set.odd_after(e) {
        Sign::Plus
    } else {
        Sign::Minus
    }
}
