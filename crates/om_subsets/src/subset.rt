ghost use Rattle.std.specs.Prelude.{◌≡◌, ℕ, ◌+◌, ◌-◌, ◌<◌, ◌≤◌, ◌^◌, ◌↔◌, length, IsNone, IfSome, IsTrue, ◌%◌};
ghost use Rattle.om_signs.specs.SignVec.{IsMaskOf};
ghost use Rattle.om_subsets.specs.Subsets.{choose, rank_of, subset_at, first_of, IsSubsetFrom, IsMember, with_element};
ghost use Rattle.om_subsets.specs.Subsets.{without_element, count_above};
ghost use Rattle.om_subsets.specs.Members.{members, mask_of};
ghost use Rattle.om_subsets.specs.Reverse.{revlex_rank_of, revlex_subset_at};

use super::binomials::{BINOMIALS, MOST_SUBSETS};
use om_signs::MAX_PLACES;
use std::marker::Model;

/// A set of some of the elements 1 to n, with n at most [`MAX_PLACES`]. Contracts see it as n together with the
/// increasing list of its elements.
///
/// Subsets of one size are ordered lexicographically by these lists, and numbered from 0 on in this order.
#[derive(Clone, Copy, Debug, PartialEq, Eq)]
pub struct Subset {
    mask: u32,
    n: u8,
}

impl Model for Subset {
    ghost use Rattle.std.specs.Prelude.{◌<◌, ◌^◌};
    ghost use Rattle.om_subsets.specs.Members.{Chosen, IsSubsetMask, members, mask_of, mask_of-members};

    ghost Value = { Chosen };

    ghost view = { λ s. record { n = s.n; elements = members s.mask 1 s.n } };

    ghost invariant = { λ s. IsSubsetMask s.mask s.n };

    ghost inverse = { λ v. record { mask = mask_of 1 v.elements v.n; n = v.n } };

    ghost inverse_ok = { λ a h. let l : a.mask < 2 ^ a.n = h.within in Prim.simp mask_of-members };
}

impl Subset {
    /// The number of ways to choose r of n elements; 0 if r is above n. `n` is at most [`MAX_PLACES`].
    pub fn choose(n: u8, r: u8) -> u32
        requires { n ≤ MAX_PLACES }
        ensures value { result ≡ choose n r }
        ensures most { result ≤ MOST_SUBSETS }
    {
        if r > n {
            return 0;
        }
        BINOMIALS[n as usize][r as usize]
    }

    /// The subset of 1 to n that a mask stands for: bit e - 1 stands for element e. `n` is at most [`MAX_PLACES`],
    /// and the mask has no bit for a number above n.
    pub fn from_mask(mask: u32, n: u8) -> Subset
        requires small { n ≤ MAX_PLACES }
        requires within { mask < 2 ^ n }
        ensures n { result.n ≡ n }
        ensures elements { result.elements ≡ members mask 1 n }
        ensures bits { IsMaskOf n (λ i. IsMember (i + 1) result.elements) mask }
        ensures lawful { IsSubsetFrom 1 n result.elements }
    {
        Subset { mask, n }
    }

    /// The mask of the elements: bit e - 1 stands for element e.
    pub fn mask(self) -> u32
        ensures value { result ≡ mask_of 1 self.elements self.n }
        ensures bits { IsMaskOf self.n (λ i. IsMember (i + 1) self.elements) result }
        ensures lawful { IsSubsetFrom 1 self.n self.elements }
    {
        self.mask
    }

    /// The number n, if the set is taken from the elements 1 to n.
    pub fn n(self) -> u8
        ensures value { result ≡ self.n }
        ensures small { result ≤ MAX_PLACES }
        ensures lawful { IsSubsetFrom 1 self.n self.elements }
    {
        self.n
    }

    /// The number of elements of the set.
    pub fn size(self) -> u8
        ensures value { result ≡ length self.elements }
        ensures lawful { IsSubsetFrom 1 self.n self.elements }
        ensures small { self.n ≤ MAX_PLACES }
        ensures within { result ≤ self.n }
    {
        self.mask.count_ones() as u8
    }

    /// The lexicographically first subset of r of the elements 1 to n, which is 1 to r. `r` is at most n, and `n`
    /// is at most [`MAX_PLACES`].
    pub fn first(r: u8, n: u8) -> Subset
        requires part { r ≤ n }
        requires small { n ≤ MAX_PLACES }
        ensures n { result.n ≡ n }
        ensures elements { result.elements ≡ first_of 1 r }
        ensures size { length result.elements ≡ r }
        ensures place { rank_of n result.elements ≡ 0 }
        ensures lawful { IsSubsetFrom 1 n result.elements }
    {
        Subset {
            mask: (1u32 << r) - 1,
            n,
        }
    }

    /// The next subset of this size in lexicographic order, or None if this is the last one.
    pub fn next(self) -> Option<Subset>
        ensures none { IsNone result ↔ (rank_of self.n self.elements + 1 ≡ choose self.n (length self.elements)) }
        ensures n { IfSome result (λ t. t.n ≡ self.n) }
        ensures size { IfSome result (λ t. length t.elements ≡ length self.elements) }
        ensures rank { IfSome result (λ t. rank_of t.n t.elements ≡ rank_of self.n self.elements + 1) }
        ensures lawful { IfSome result (λ t. IsSubsetFrom 1 t.n t.elements) }
        ensures here { IsSubsetFrom 1 self.n self.elements }
    {
        let mut tail = 0u8;
        for k in 0..self.n {
            let i = self.n - 1 - k;
            if self.mask >> i & 1 == 1 {
                if tail < k {
                    let low = self.mask & ((1u32 << i) - 1);
                    let run = ((1u32 << (tail + 1)) - 1) << (i + 1);
                    return Some(Subset {
                        mask: low | run,
                        n: self.n,
                    });
                }
                tail += 1;
            }
        }
        None
    }

    /// The place of this subset, counted from 0, in the lexicographic order of those of its size.
    pub fn rank(self) -> u32
        ensures value { result ≡ rank_of self.n self.elements }
        ensures small { result < choose self.n (length self.elements) }
        ensures back { subset_at self.n (length self.elements) result ≡ self.elements }
        ensures lawful { IsSubsetFrom 1 self.n self.elements }
    {
        let mut left = self.size();
        let mut rest = self.mask;
        let mut rank = Subset::choose(self.n, left) - 1;
        while rest != 0 {
            // the sets that share the elements so far, and then have a greater element than this one, come later
            let element = rest.trailing_zeros() as u8 + 1;
            rank -= Subset::choose(self.n - element, left);
            left -= 1;
            rest &= rest - 1;
        }
        rank
    }

    /// The subset at place k, counted from 0, in the lexicographic order of the subsets of r of the elements 1 to
    /// n. `r` is at most n, `n` is at most [`MAX_PLACES`], and `k` is below `choose(n, r)`.
    pub fn unrank(k: u32, r: u8, n: u8) -> Subset
        requires part { r ≤ n }
        requires small { n ≤ MAX_PLACES }
        requires place { k < choose n r }
        ensures n { result.n ≡ n }
        ensures elements { result.elements ≡ subset_at n r k }
        ensures size { length result.elements ≡ r }
        ensures place { rank_of n result.elements ≡ k }
        ensures lawful { IsSubsetFrom 1 n result.elements }
    {
        let mut left = r;
        let mut rest = k;
        let mut mask = 0u32;
        for i in 0..n {
            if left > 0 {
                let count = Subset::choose(n - 1 - i, left - 1);
                if rest < count {
                    mask |= 1u32 << i;
                    left -= 1;
                } else {
                    rest -= count;
                }
            }
        }
        Subset { mask, n }
    }

    /// The place of this subset, counted from 0, in the reverse lexicographic order of those of its size. The list
    /// with the smaller element at the last place in which two lists differ comes first.
    pub fn rank_revlex(self) -> u32
        ensures value { result ≡ revlex_rank_of self.elements }
        ensures small { result < choose self.n (length self.elements) }
        ensures back { revlex_subset_at self.n (length self.elements) result ≡ self.elements }
        ensures lawful { IsSubsetFrom 1 self.n self.elements }
    {
        let mut rest = self.mask;
        let mut place = 0u8;
        let mut rank = 0u32;
        while rest != 0 {
            // the sets that agree after this place, and have a smaller element at it, come before
            let below = rest.trailing_zeros() as u8;
            place += 1;
            rank += Subset::choose(below, place);
            rest &= rest - 1;
        }
        rank
    }

    /// The subset at place k, counted from 0, in the reverse lexicographic order of the subsets of r of the
    /// elements 1 to n. `r` is at most n, `n` is at most [`MAX_PLACES`], and `k` is below `choose(n, r)`.
    pub fn unrank_revlex(k: u32, r: u8, n: u8) -> Subset
        requires part { r ≤ n }
        requires small { n ≤ MAX_PLACES }
        requires place { k < choose n r }
        ensures n { result.n ≡ n }
        ensures elements { result.elements ≡ revlex_subset_at n r k }
        ensures size { length result.elements ≡ r }
        ensures place { revlex_rank_of result.elements ≡ k }
        ensures lawful { IsSubsetFrom 1 n result.elements }
    {
        let mut left = r;
        let mut rest = k;
        let mut mask = 0u32;
        for j in 0..n {
            // the sets without the greatest remaining element come before those with it
            let i = n - 1 - j;
            let without = Subset::choose(i, left);
            if without <= rest {
                rest -= without;
                mask |= 1u32 << i;
                left -= 1;
            }
        }
        Subset { mask, n }
    }

    /// Whether e is an element of the set. `e` is from 1 to n.
    pub fn has(self, e: u8) -> bool
        requires low { 1 ≤ e }
        requires high { e ≤ self.n }
        ensures { IsTrue result ↔ IsMember e self.elements }
    {
        self.mask >> (e - 1) & 1 == 1
    }

    /// The set with e, which may be an element already. `e` is from 1 to n.
    pub fn with(self, e: u8) -> Subset
        requires low { 1 ≤ e }
        requires high { e ≤ self.n }
        ensures n { result.n ≡ self.n }
        ensures elements { result.elements ≡ with_element e self.elements }
        ensures lawful { IsSubsetFrom 1 result.n result.elements }
    {
        Subset {
            mask: self.mask | 1u32 << (e - 1),
            n: self.n,
        }
    }

    /// The set without e, which need not be an element. `e` is from 1 to n.
    pub fn without(self, e: u8) -> Subset
        requires low { 1 ≤ e }
        requires high { e ≤ self.n }
        ensures n { result.n ≡ self.n }
        ensures elements { result.elements ≡ without_element e self.elements }
        ensures lawful { IsSubsetFrom 1 result.n result.elements }
    {
        Subset {
            mask: self.mask & !(1u32 << (e - 1)),
            n: self.n,
        }
    }

    /// Whether the number of elements greater than e is odd. `e` is from 1 to n.
    pub fn odd_after(self, e: u8) -> bool
        requires low { 1 ≤ e }
        requires high { e ≤ self.n }
        ensures { IsTrue result ↔ (count_above e self.elements % 2 ≡ 1) }
    {
        (self.mask >> e).count_ones() % 2 == 1
    }
}
