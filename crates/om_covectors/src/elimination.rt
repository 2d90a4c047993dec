//! The axiom of elimination.

ghost use Rattle.std.specs.Prelude.{◌≡◌, ◌↔◌, ◌+◌, ◌≤◌, length, IsTrue, IfSome, IfNone};
ghost use Rattle.om_signs.specs.declared.limits.TheConstants.{MAX_ELEMENTS, MAX_MEMBERS};
ghost use Rattle.om_members.specs.Listings.{HaveLength};
ghost use Rattle.om_covectors.specs.Instances.{HasNoCovectorEliminator};
ghost use Rattle.om_members.specs.Scans.{AllBelow, IsFirstBad};
ghost use Rattle.om_covectors.specs.Scans.{IsFixedOutside, HasFixedOutside, HasCovectorEliminatorIfAsked, IsUnblocked};
ghost use Rattle.om_covectors.specs.Scans.{IsUnblockedAt, IsFirstBlockedWith, IsFirstBlocked};

use om_parallel::{Probe, first_bad_by_cost};
use om_signs::SignVec;
use std::thread::Threads;

/// Whether, outside the places of one mask, the places with a plus and those with a minus are two other masks.
fn is_fixed_outside(z: SignVec, free: u32, plus: u32, minus: u32) -> bool
    ensures { IsTrue result ↔ IsFixedOutside free plus minus z }
{
    z.plus() & !free == plus && z.minus() & !free == minus
}

/// Whether some member has these signs outside the places of a mask.
fn has_fixed_outside(members: &[SignVec], free: u32, plus: u32, minus: u32) -> bool
    ensures { IsTrue result ↔ HasFixedOutside members.now free plus minus }
{
    for z in members {
        if is_fixed_outside(*z, free, plus, minus) {
            return true;
        }
    }
    false
}

/// The first element that no member eliminates from the composition of x and y, or None.
fn first_blocked_element(members: &[SignVec], elements: u8, x: SignVec, y: SignVec) -> Option<u8>
    requires high { elements ≤ MAX_ELEMENTS }
    requires lengths { length x ≡ length y }
    ensures none { IfNone result (AllBelow (elements + 1) (HasCovectorEliminatorIfAsked members.now x y)) }
    ensures first { IfSome result
        (IsFirstBad (elements + 1) (HasNoCovectorEliminator members.now x y)
        (HasCovectorEliminatorIfAsked members.now x y)) }
{
    let separation = x.separation(y);
    if separation == 0 {
        return None;
    }
    let composed = x.compose(y);
    let plus = composed.plus() & !separation;
    let minus = composed.minus() & !separation;
    for e in 1..elements + 1 {
        let bit = 1u32 << (e - 1);
        if separation & bit != 0 && !has_fixed_outside(members, separation & !bit, plus, minus) {
            return Some(e);
        }
    }
    None
}

/// The place of the first member such that some element can't be eliminated from its composition with x, and the
/// first such element.
fn first_blocked_with(members: &[SignVec], elements: u8, x: SignVec) -> Option<(usize, u8)>
    requires high { elements ≤ MAX_ELEMENTS }
    requires lengths { HaveLength (length x) members.now }
    ensures none { IfNone result (IsUnblocked members.now elements x) }
    ensures first { IfSome result (λ p. IsFirstBlockedWith members.now elements x p.0 p.1) }
{
    for (j, y) in members.iter().enumerate() {
        if let Some(e) = first_blocked_element(members, elements, x, *y) {
            return Some((j, e));
        }
    }
    None
}

/// The members of a list, numbered from 0. A number is bad if some element can't be eliminated from the composition
/// of its member and some other one.
#[derive(Drop)]
struct BlockedMembers<'a> {
    members: &'a [SignVec],
    elements: u8,
    ghost high: { elements ≤ MAX_ELEMENTS },
    ghost lengths: { HaveLength elements members.now },
}

impl Probe for BlockedMembers<'_> {
    ghost use Rattle.std.specs.Prelude.{length};
    ghost use Rattle.om_members.specs.Scans.{IsBadBelow};
    ghost use Rattle.om_covectors.specs.Scans.{IsUnblockedAt};

    ghost is_bad = { λ s. IsBadBelow (length s.members.now) (IsUnblockedAt s.members.now s.elements) };

    fn bad(&self, k: u64) -> bool {
        if k >= self.members.len() as u64 {
            return false;
        }
        first_blocked_with(self.members, self.elements, self.members[k as usize]).is_some()
    }
}

/// The places of the first two members from whose composition some element can't be eliminated, and the first such
/// element. If the list is so long that threads pay, the first members are distributed among threads. For each
/// second member, all members are scanned.
pub fn first_blocked<R: Threads + Sync>(
    rt: &R,
    members: &[SignVec],
    elements: u8,
) -> Option<(usize, usize, u8)>
    requires high { elements ≤ MAX_ELEMENTS }
    requires lengths { HaveLength elements members.now }
    requires few { length members.now ≤ MAX_MEMBERS }
    ensures none { IfNone result (AllBelow (length members.now) (IsUnblockedAt members.now elements)) }
    ensures first { IfSome result (λ t. IsFirstBlocked members.now elements t.0 t.1 t.2) }
{
    let blocked = BlockedMembers { members, elements };
    let count = members.len() as u64;
    let i = first_bad_by_cost(rt, &blocked, count, count * count)? as usize;
    let (j, e) = first_blocked_with(members, elements, members[i])?;
    Some((i, j, e))
}
