ghost use Rattle.std.specs.Prelude.{◌≡◌, ◌≤◌, ◌+◌, ◌⊎◌, ◌↔◌, length, IsTrue, IfOk};
ghost use Rattle.om_subsets.specs.Lists.{IsWithin};
ghost use Rattle.om_chirotope.specs.Map.{map_of, chi_of, value_of, circuit_vector, cocircuit_vector, negated, IsLedBy};
ghost use Rattle.om_chirotope.specs.Chirotope.{IsChirotope, IsWithinLimits};

use super::whole_map::WholeMap;
use om_signs::{MAX_ELEMENTS, NoMemory, RawMap, Sign, SignVec};
use om_subsets::Subset;
use std::marker::Model;

/// A map that satisfies the axioms of a chirotope. Some value isn't 0, and every sign vector V is orthogonal to every
/// sign vector U. Here V is that of an increasing list S of one element more than the rank, and U that of an
/// increasing list A of one element less.
///
/// Contracts see its rank, its number of elements and its signs in lexicographic order.
///
/// Source: Björner, Las Vergnas, Sturmfels, White and Ziegler, *Oriented Matroids*, chapter 3.
#[derive(Drop)]
pub struct Chirotope {
    raw: RawMap,
}

impl Model for Chirotope {
    ghost use Rattle.om_chirotope.specs.Map.{SignMap, map_of};
    ghost use Rattle.om_chirotope.specs.Chirotope.{IsChirotopeWithinLimits};

    ghost Value = { SignMap };

    ghost view = { λ c. map_of c.raw };

    ghost invariant = { λ c. IsChirotopeWithinLimits (map_of c.raw) };
}

impl Chirotope {
    /// The chirotope with the rank, the elements and the signs of a map that satisfies the axioms. There are from 1 to
    /// [`MAX_ELEMENTS`] elements.
    pub fn lawful(raw: RawMap) -> Chirotope
        requires axioms { IsChirotope (map_of raw) }
        requires limits { IsWithinLimits (map_of raw) }
        ensures { result ≡ map_of raw }
    {
        Chirotope { raw }
    }

    /// The rank: the number of elements of each list that has a sign.
    pub fn rank(&self) -> u8
        ensures value { result ≡ self.now.rank }
        ensures high { result ≤ self.now.elements }
        ensures some { 1 ≤ self.now.elements }
        ensures few { self.now.elements ≤ MAX_ELEMENTS }
        ensures lawful { IsChirotope self.now }
    {
        self.raw.rank
    }

    /// The number of elements.
    pub fn elements(&self) -> u8
        ensures value { result ≡ self.now.elements }
        ensures low { 1 ≤ result }
        ensures high { result ≤ MAX_ELEMENTS }
        ensures part { self.now.rank ≤ self.now.elements }
        ensures lawful { IsChirotope self.now }
    {
        self.raw.elements
    }

    /// The sign of a set of as many elements as the rank.
    pub fn at(&self, s: Subset) -> Sign
        requires n { s.n ≡ self.now.elements }
        requires size { length s.elements ≡ self.now.rank }
        ensures place { result ≡ chi_of self.now s.elements }
        ensures value { result ≡ value_of self.now s.elements }
    {
        let map = WholeMap { raw: &self.raw };
        map.sign_at(s)
    }

    /// The sign vector V of a set S of one element more than the rank. At the i-th element of S, counted from 1, it
    /// is the sign of S without this element times (-1)^i; off S it is 0. If V isn't 0, V and its negative are
    /// circuits.
    pub fn circuit_of(&self, s: Subset) -> SignVec
        requires n { s.n ≡ self.now.elements }
        requires size { length s.elements ≡ self.now.rank + 1 }
        ensures { result ≡ circuit_vector self.now s.elements }
    {
        let map = WholeMap { raw: &self.raw };
        map.circuit_of(s)
    }

    /// The sign vector U of a set A of one element less than the rank. At each element e it is the value of the
    /// tuple of A followed by e. If U isn't 0, U and its negative are cocircuits.
    pub fn cocircuit_of(&self, a: Subset) -> SignVec
        requires n { a.n ≡ self.now.elements }
        requires size { length a.elements + 1 ≡ self.now.rank }
        ensures { result ≡ cocircuit_vector self.now a.elements }
    {
        let map = WholeMap { raw: &self.raw };
        map.cocircuit_of(a)
    }

    /// The value of a tuple of as many elements as the rank. It is 0 if an element occurs twice, and else the sign
    /// of the set of its elements times the sign of the permutation that sorts it.
    pub fn value(&self, tuple: &[u8]) -> Sign
        requires size { length tuple.now ≡ self.now.rank }
        requires within { IsWithin 1 self.now.elements tuple.now }
        ensures { result ≡ value_of self.now tuple.now }
    {
        let map = WholeMap { raw: &self.raw };
        map.value_at(tuple)
    }

    /// The negative: the chirotope with every sign negated.
    pub fn negate(self) -> Chirotope
        ensures { result ≡ negated self }
    {
        Chirotope {
            raw: negation(self.raw),
        }
    }

    /// The one of this chirotope and its negative whose first nonzero sign is plus.
    pub fn normal(self) -> Chirotope
        ensures same { (result ≡ self) ⊎ (result ≡ negated self) }
        ensures normal { IsLedBy Sign.Plus result.signs }
    {
        if is_led_by_minus(self.raw.signs.as_slice()) {
            self.negate()
        } else {
            self
        }
    }

    /// The signs of the increasing lists of as many elements as the rank, in lexicographic order of the lists.
    pub fn signs(&self) -> &[Sign]
        ensures { result.now ≡ self.now.signs }
    {
        self.raw.signs.as_slice()
    }

    /// A copy, which has its own signs on the heap, with the same allocator.
    ///
    /// [`NoMemory`] comes only if memory runs out.
    pub fn copy(&self) -> Result<Chirotope, NoMemory>
        ensures { IfOk result (λ c. c ≡ self.now) }
    {
        let signs = self.raw.signs.copy()?;
        Ok(Chirotope {
            raw: RawMap {
                rank: self.raw.rank,
                elements: self.raw.elements,
                signs,
            },
        })
    }

    /// The map of the chirotope: its rank, its elements and its signs.
    pub fn into_raw(self) -> RawMap
        ensures value { map_of result ≡ self }
        ensures part { self.rank ≤ self.elements }
        ensures low { 1 ≤ self.elements }
        ensures high { self.elements ≤ MAX_ELEMENTS }
        ensures lawful { IsChirotope self }
    {
        self.raw
    }
}

/// The map with every sign negated.
fn negation(raw: RawMap) -> RawMap
    ensures { map_of result ≡ negated (map_of raw) }
{
    let mut turned = raw;
    for i in 0..turned.signs.len() {
        let sign = turned.signs.at(i);
        turned.signs.set(i, sign.neg());
    }
    turned
}

/// Whether the first nonzero sign is minus.
fn is_led_by_minus(signs: &[Sign]) -> bool
    ensures { IsTrue result ↔ IsLedBy Sign.Minus signs.now }
{
    for sign in signs {
        match *sign {
            Sign::Zero => {}
            Sign::Plus => return false,
            Sign::Minus => return true,
        }
    }
    false
}
