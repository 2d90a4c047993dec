ghost use Rattle.std.specs.Prelude.{◌≡◌, ℕ, ◌+◌, ◌-◌, ◌<◌, ◌≤◌, ◌^◌, ◌↔◌, IsTrue, length, map, replicate, remove};
ghost use Rattle.std.specs.Prelude.{slice_set};
ghost use Rattle.om_signs.specs.Sign.{opposite};
ghost use Rattle.om_signs.specs.SignVec.{at_element, compose, flip, IsMaskOf, IsSeparated, IsOrthogonal, IsConformal};
ghost use Rattle.om_signs.specs.SignVec.{IsInSupport, IsPlus, IsMinus};

use super::limits::MAX_PLACES;
use super::sign::Sign;
use std::cmp::Ordering;
use std::marker::Model;

/// A sign vector: a sign for each of the elements 1 to `len`, and `len` is from 1 to [`MAX_PLACES`].
///
/// Contracts see the list of the signs. Sign vectors are ordered lexicographically: the first place where two
/// vectors differ decides, with minus before zero before plus. A vector comes before each longer one that begins
/// with it.
///
/// A mask of elements is a `u32` whose bit `e - 1` stands for the element `e`.
///
/// Source: Björner, Las Vergnas, Sturmfels, White and Ziegler, Oriented Matroids, chapters 3 and 4.
#[derive(Clone, Copy, Debug, PartialEq, Eq, Hash)]
pub struct SignVec {
    plus: u32,
    minus: u32,
    len: u8,
}

impl Model for SignVec {
    ghost use Rattle.std.specs.Prelude.{List};
    ghost use Rattle.om_signs.specs.declared.sign.Sign.{Sign};

    ghost Value = { List Sign };

    ghost use Rattle.std.specs.Prelude.{◌≡◌, ◌<◌, ◌≤◌, ◌^◌, bit_and, length};
    ghost use Rattle.om_signs.specs.Masks.{signs_of, plus_mask, minus_mask, plus_mask-signs_of, minus_mask-signs_of};
    ghost use Rattle.om_signs.specs.Masks.{AreSignMasks};

    ghost view = { λ v. signs_of v.plus v.minus v.len };

    ghost invariant = { λ v. AreSignMasks v.plus v.minus v.len };

    ghost inverse = { λ xs. record { plus = plus_mask xs; minus = minus_mask xs; len = length xs } };

    ghost use Rattle.om_signs.specs.Masks.{length-signs_of};

    ghost inverse_ok = { λ a h. Prim.simp (plus_mask-signs_of, minus_mask-signs_of, length-signs_of) };
}

impl SignVec {
    /// The vector of `n` zeros, with `n` from 1 to [`MAX_PLACES`].
    pub fn zero(n: u8) -> SignVec
        requires low { 1 ≤ n }
        requires high { n ≤ MAX_PLACES }
        ensures { result ≡ replicate n Sign.Zero }
    {
        SignVec {
            plus: 0,
            minus: 0,
            len: n,
        }
    }

    /// The number of places, from 1 to [`MAX_PLACES`].
    pub fn len(self) -> u8
        ensures value { result ≡ length self }
        ensures low { 1 ≤ length self }
        ensures high { length self ≤ MAX_PLACES }
    {
        self.len
    }

    /// The negative: each sign is the opposite one.
    pub fn neg(self) -> SignVec
        ensures { result ≡ map opposite self }
    {
        SignVec {
            plus: self.minus,
            minus: self.plus,
            len: self.len,
        }
    }

    /// The sign at the element `e`, which is from 1 to the length.
    pub fn get(self, e: u8) -> Sign
        requires low { 1 ≤ e }
        requires high { e ≤ length self }
        ensures { result ≡ at_element self e }
    {
        let bit = 1u32 << (e - 1);
        if self.plus & bit != 0 {
            Sign::Plus
        } else if self.minus & bit != 0 {
            Sign::Minus
        } else {
            Sign::Zero
        }
    }

    /// The vector with the sign `s` at the element `e`, and the same signs elsewhere. `e` is from 1 to the length.
    pub fn set(self, e: u8, s: Sign) -> SignVec
        requires low { 1 ≤ e }
        requires high { e ≤ length self }
        ensures { result ≡ slice_set self (e - 1) s }
    {
        let bit = 1u32 << (e - 1);
        SignVec {
            plus: (self.plus & !bit) | (s.plus_bit() << (e - 1)),
            minus: (self.minus & !bit) | (s.minus_bit() << (e - 1)),
            len: self.len,
        }
    }

    /// The composition with a vector of the same length: the sign of `self` where it isn't zero, and elsewhere the
    /// sign of `y`.
    pub fn compose(self, y: SignVec) -> SignVec
        requires { length self ≡ length y }
        ensures { result ≡ compose self y }
    {
        SignVec {
            plus: self.plus | (y.plus & !self.minus),
            minus: self.minus | (y.minus & !self.plus),
            len: self.len,
        }
    }

    /// The separation from a vector of the same length, as a mask: the elements at which the signs are opposite and
    /// nonzero.
    pub fn separation(self, y: SignVec) -> u32
        requires { length self ≡ length y }
        ensures { IsMaskOf (length self) (IsSeparated self y) result }
    {
        (self.plus & y.minus) | (self.minus & y.plus)
    }

    /// The support as a mask: the elements whose sign isn't zero.
    pub fn support(self) -> u32
        ensures { IsMaskOf (length self) (IsInSupport self) result }
    {
        self.plus | self.minus
    }

    /// Whether the vector is orthogonal to one of the same length. The products of the signs, place by place,
    /// include a plus exactly if they include a minus. So the supports are disjoint, or both occur.
    pub fn orthogonal(self, y: SignVec) -> bool
        requires { length self ≡ length y }
        ensures { IsTrue result ↔ IsOrthogonal self y }
    {
        let same = (self.plus & y.plus) | (self.minus & y.minus);
        let apart = (self.plus & y.minus) | (self.minus & y.plus);
        (same == 0) == (apart == 0)
    }

    /// Whether the vector conforms to one of the same length: each of its signs is zero or equals that of `y`.
    pub fn conforms(self, y: SignVec) -> bool
        requires { length self ≡ length y }
        ensures { IsTrue result ↔ IsConformal self y }
    {
        let outside = (self.plus & !y.plus) | (self.minus & !y.minus);
        outside == 0
    }

    /// The vector without the place of the element `e`, so that later elements move down by one. `e` is from 1 to
    /// the length, which is at least 2.
    pub fn drop_place(self, e: u8) -> SignVec
        requires low { 1 ≤ e }
        requires high { e ≤ length self }
        requires long { 2 ≤ length self }
        ensures { result ≡ remove self (e - 1) }
    {
        let below = (1u32 << (e - 1)) - 1;
        SignVec {
            plus: (self.plus & below) | ((self.plus >> 1) & !below),
            minus: (self.minus & below) | ((self.minus >> 1) & !below),
            len: self.len - 1,
        }
    }

    /// The vector with its signs negated at the elements of `mask`, which are elements of the vector.
    pub fn flip(self, mask: u32) -> SignVec
        requires { mask < 2 ^ length self }
        ensures { result ≡ flip mask self }
    {
        SignVec {
            plus: (self.plus & !mask) | (self.minus & mask),
            minus: (self.minus & !mask) | (self.plus & mask),
            len: self.len,
        }
    }

    /// The elements with a plus, as a mask: bit e - 1 stands for element e.
    pub fn plus(self) -> u32
        ensures { IsMaskOf (length self) (IsPlus self) result }
    {
        self.plus
    }

    /// The elements with a minus, as a mask: bit e - 1 stands for element e.
    pub fn minus(self) -> u32
        ensures { IsMaskOf (length self) (IsMinus self) result }
    {
        self.minus
    }
}

impl Ord for SignVec {
    ghost use Rattle.std.specs.Prelude.{Some};
    ghost use Rattle.om_signs.specs.Order.{lexicographic};
    ghost use Rattle.om_signs.specs.OrderLaws.{lexicographic-total, matches_eq};

    ghost cmp = { lexicographic };

    ghost total = { lexicographic-total };

    ghost matches_partial_cmp = { λ x y i. Some (lexicographic x y) };

    ghost matches_eq = { matches_eq };

    fn cmp(&self, other: &SignVec) -> Ordering {
        let differing = (self.plus ^ other.plus) | (self.minus ^ other.minus);
        let place = differing.trailing_zeros();
        if place < u32::from(self.len.min(other.len)) {
            let e = place as u8 + 1;
            self.get(e).cmp(&other.get(e))
        } else {
            self.len.cmp(&other.len)
        }
    }
}

impl PartialOrd for SignVec {
    ghost use Rattle.std.specs.Ordering.{as_partial_cmp};
    ghost use Rattle.std.specs.Prelude.{Some};
    ghost use Rattle.std.specs.Cmp.{partial_order_from_agreeing_total};
    ghost use Rattle.om_signs.specs.Order.{lexicographic};
    ghost use Rattle.om_signs.specs.OrderLaws.{lexicographic-total, matches_eq};

    ghost partial_cmp = { as_partial_cmp lexicographic };

    ghost laws = { partial_order_from_agreeing_total lexicographic lexicographic-total
        (λ x y i. Some (lexicographic x y)) matches_eq };

    fn partial_cmp(&self, other: &SignVec) -> Option<Ordering> {
        Some(self.cmp(other))
    }
}
