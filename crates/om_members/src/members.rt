//! Tests of vectors, and of a list of members.

ghost use Rattle.std.specs.Prelude.{◌≡◌, ◌↔◌, length, IsTrue, IfSome, IfNone};
ghost use Rattle.std.specs.List.{Contains};
ghost use Rattle.om_members.specs.Vectors.{IsZero};
ghost use Rattle.om_members.specs.Scans.{AllBelow, IsFirstBad, HasNegativeAt, HasNoNegativeAt};

use om_signs::SignVec;

/// Whether all signs of a vector are zero.
pub fn is_zero(x: SignVec) -> bool
    ensures { IsTrue result ↔ IsZero x }
{
    x.support() == 0
}

/// Whether two vectors are equal: of one length, with the same signs.
pub fn are_same(x: SignVec, y: SignVec) -> bool
    ensures { IsTrue result ↔ (x ≡ y) }
{
    x == y
}

/// Whether a vector is a member of the list.
pub fn is_member(members: &[SignVec], x: SignVec) -> bool
    ensures { IsTrue result ↔ Contains members.now x }
{
    for y in members {
        if are_same(*y, x) {
            return true;
        }
    }
    false
}

/// The place, from 0, of the first member whose negative is no member, or None if there is none.
///
/// Source: Björner, Las Vergnas, Sturmfels, White and Ziegler, *Oriented Matroids*, chapter 3.
pub fn first_without_negative(members: &[SignVec]) -> Option<usize>
    ensures none { IfNone result (AllBelow (length members.now) (HasNegativeAt members.now)) }
    ensures first { IfSome result (IsFirstBad (length members.now) (HasNoNegativeAt members.now) (HasNegativeAt members.now)) }
{
    for (k, x) in members.iter().enumerate() {
        if !is_member(members, x.neg()) {
            return Some(k);
        }
    }
    None
}
