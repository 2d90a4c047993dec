//! The axioms on zero and on supports.

ghost use Rattle.std.specs.Prelude.{◌<◌, length, MatchBool, IfSome, IfNone};
ghost use Rattle.om_circuits.specs.Instances.{IsNestedIn};
ghost use Rattle.om_members.specs.Scans.{AllBelow, IsFirstBad, IsFirstBadPair, nth};
ghost use Rattle.om_circuits.specs.Scans.{IsZeroAt, IsNotZeroAt, IsUnnestedIn, AreNestedAt, AreUnnestedAt};

use om_members::{are_same, is_zero};
use om_parallel::{Probe, first_bad_by_cost};
use om_signs::SignVec;
use std::thread::Threads;

/// The place of the first zero vector, or None.
pub fn first_zero(members: &[SignVec]) -> Option<usize>
    ensures none { IfNone result (AllBelow (length members.now) (IsNotZeroAt members.now)) }
    ensures first { IfSome result (IsFirstBad (length members.now) (IsZeroAt members.now) (IsNotZeroAt members.now)) }
{
    for (k, x) in members.iter().enumerate() {
        if is_zero(*x) {
            return Some(k);
        }
    }
    None
}

/// Whether the support of x lies in that of y, and x is neither y nor its negative.
fn is_nested(x: SignVec, y: SignVec) -> bool
    ensures { MatchBool result (IsNestedIn x y) (IsUnnestedIn x y) }
{
    x.support() & !y.support() == 0 && !are_same(x, y) && !are_same(x, y.neg())
}

/// The place of the first member in which x is nested, or None.
fn first_nested_with(members: &[SignVec], x: SignVec) -> Option<usize>
    ensures none { IfNone result (AllBelow (length members.now) (λ j. IsUnnestedIn x (nth members.now j))) }
    ensures first { IfSome result
        (IsFirstBad (length members.now) (λ j. IsNestedIn x (nth members.now j))
        (λ j. IsUnnestedIn x (nth members.now j))) }
{
    for (k, y) in members.iter().enumerate() {
        if is_nested(x, *y) {
            return Some(k);
        }
    }
    None
}

/// The members of a list, numbered from 0. A number is bad if its member is nested in some member.
#[derive(Drop)]
struct NestedMembers<'a> {
    members: &'a [SignVec],
}

impl Probe for NestedMembers<'_> {
    ghost use Rattle.std.specs.Prelude.{length};
    ghost use Rattle.om_members.specs.Scans.{AllBelow, IsBadBelow};
    ghost use Rattle.om_circuits.specs.Scans.{AreUnnestedAt};

    ghost is_bad = { λ s. IsBadBelow (length s.members.now)
        (λ i. AllBelow (length s.members.now) (AreUnnestedAt s.members.now i)) };

    fn bad(&self, k: u64) -> bool {
        if k >= self.members.len() as u64 {
            return false;
        }
        first_nested_with(self.members, self.members[k as usize]).is_some()
    }
}

/// The places of the first two members such that the first is nested in the second. If the list is so long that
/// threads pay, the first members are distributed among threads.
pub fn first_nested<R: Threads + Sync>(rt: &R, members: &[SignVec]) -> Option<(usize, usize)>
    ensures none { IfNone result
        (AllBelow (length members.now) (λ i. AllBelow (length members.now) (AreUnnestedAt members.now i))) }
    ensures first { IfSome result
        (λ p. IsFirstBadPair (length members.now) (length members.now) (AreNestedAt members.now)
        (AreUnnestedAt members.now) p.0 p.1) }
{
    let nested = NestedMembers { members };
    let count = members.len() as u64;
    let i = first_bad_by_cost(rt, &nested, count, count)? as usize;
    let j = first_nested_with(members, members[i])?;
    Some((i, j))
}
