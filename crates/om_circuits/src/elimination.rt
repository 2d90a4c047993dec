//! The axiom of elimination.

ghost use Rattle.std.specs.Prelude.{◌↔◌, ◌+◌, ◌≤◌, ◌<◌, length, IsTrue, IfSome, IfNone};
ghost use Rattle.om_signs.specs.declared.limits.TheConstants.{MAX_ELEMENTS, MAX_MEMBERS};
ghost use Rattle.om_circuits.specs.Instances.{HasNoEliminator};
ghost use Rattle.om_members.specs.Scans.{AllBelow, IsFirstBad};
ghost use Rattle.om_circuits.specs.Scans.{IsWithin, HasWithin, HasEliminatorIfAsked, IsUnblocked, IsUnblockedAt};
ghost use Rattle.om_circuits.specs.Scans.{IsFirstBlockedWith, IsFirstBlocked};

use om_members::are_same;
use om_parallel::{Probe, first_bad_by_cost};
use om_signs::SignVec;
use std::thread::Threads;

/// Whether the places with a plus lie in one mask and those with a minus in another.
fn is_within(z: SignVec, plus: u32, minus: u32) -> bool
    ensures { IsTrue result ↔ IsWithin plus minus z }
{
    (z.plus() & !plus) | (z.minus() & !minus) == 0
}

/// Whether some member has its pluses in one mask and its minuses in the other.
fn has_within(members: &[SignVec], plus: u32, minus: u32) -> bool
    ensures { IsTrue result ↔ HasWithin members.now plus minus }
{
    for z in members {
        if is_within(*z, plus, minus) {
            return true;
        }
    }
    false
}

/// The first element that no member eliminates from x and y, or None.
fn first_blocked_element(members: &[SignVec], elements: u8, x: SignVec, y: SignVec) -> Option<u8>
    requires { elements ≤ MAX_ELEMENTS }
    ensures none { IfNone result (AllBelow (elements + 1) (HasEliminatorIfAsked members.now x y)) }
    ensures first { IfSome result
        (IsFirstBad (elements + 1) (HasNoEliminator members.now x y) (HasEliminatorIfAsked members.now x y)) }
{
    let opposed = x.plus() & y.minus();
    if opposed == 0 || are_same(x, y.neg()) {
        return None;
    }
    let plus = x.plus() | y.plus();
    let minus = x.minus() | y.minus();
    for e in 1..elements + 1 {
        let bit = 1u32 << (e - 1);
        if opposed & bit != 0 && !has_within(members, plus & !bit, minus & !bit) {
            return Some(e);
        }
    }
    None
}

/// The place of the first member such that some element can't be eliminated from x and it, and the first such
/// element.
fn first_blocked_with(members: &[SignVec], elements: u8, x: SignVec) -> Option<(usize, u8)>
    requires { elements ≤ MAX_ELEMENTS }
    ensures none { IfNone result (IsUnblocked members.now elements x) }
    ensures first { IfSome result (λ p. IsFirstBlockedWith members.now elements x p.0 p.1) }
{
    for (j, y) in members.iter().enumerate() {
        if let Some(e) = first_blocked_element(members, elements, x, *y) {
            return Some((j, e));
        }
    }
    None
}

/// The members of a list, numbered from 0. A number is bad if some element can't be eliminated from its member and
/// some other one.
#[derive(Drop)]
struct BlockedMembers<'a> {
    members: &'a [SignVec],
    elements: u8,
    ghost high: { elements ≤ MAX_ELEMENTS },
}

impl Probe for BlockedMembers<'_> {
    ghost use Rattle.std.specs.Prelude.{length};
    ghost use Rattle.om_members.specs.Scans.{IsBadBelow};
    ghost use Rattle.om_circuits.specs.Scans.{IsUnblockedAt};

    ghost is_bad = { λ s. IsBadBelow (length s.members.now) (IsUnblockedAt s.members.now s.elements) };

    fn bad(&self, k: u64) -> bool {
        if k >= self.members.len() as u64 {
            return false;
        }
        first_blocked_with(self.members, self.elements, self.members[k as usize]).is_some()
    }
}

/// The places of the first two members from which some element can't be eliminated, and the first such element. If
/// the list is so long that threads pay, the first members are distributed among threads. For each second member,
/// all members are scanned.
pub fn first_blocked<R: Threads + Sync>(
    rt: &R,
    members: &[SignVec],
    elements: u8,
) -> Option<(usize, usize, u8)>
    requires high { elements ≤ MAX_ELEMENTS }
    requires few { length members.now ≤ MAX_MEMBERS }
    ensures none { IfNone result (AllBelow (length members.now) (IsUnblockedAt members.now elements)) }
    ensures first { IfSome result (λ t. IsFirstBlocked members.now elements t.0 t.1 t.2) }
{
    let blocked = BlockedMembers { members, elements };
    let count = members.len() as u64;
    let i = first_bad_by_cost(rt, &blocked, count, count * count)? as usize;
    let (j, e) = first_blocked_with(members, elements, members[i])?;
    Some((i, j, e))
}
