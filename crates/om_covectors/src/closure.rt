//! The axioms on zero and on compositions.

ghost use Rattle.std.specs.Prelude.{◌↔◌, ◌≤◌, length, IsTrue, IfSome, IfNone};
ghost use Rattle.om_signs.specs.declared.limits.TheConstants.{MAX_MEMBERS};
ghost use Rattle.om_covectors.specs.Axioms.{HasZero};
ghost use Rattle.om_members.specs.Listings.{HaveLength};
ghost use Rattle.om_members.specs.Scans.{AllBelow, IsFirstBad, IsFirstBadPair};
ghost use Rattle.om_covectors.specs.Scans.{HasCompositionWith, HasNoCompositionWith, HasCompositionAt};
ghost use Rattle.om_covectors.specs.Scans.{HasNoCompositionAt};

use om_members::{is_member, is_zero};
use om_parallel::{Probe, first_bad_by_cost};
use om_signs::SignVec;
use std::thread::Threads;

/// Whether the zero vector is a member.
pub fn has_zero(members: &[SignVec]) -> bool
    ensures { IsTrue result ↔ HasZero members.now }
{
    for x in members {
        if is_zero(*x) {
            return true;
        }
    }
    false
}

/// The place of the first member whose composition with x, in front, is no member, or None.
fn first_uncomposed_with(members: &[SignVec], x: SignVec) -> Option<usize>
    requires { HaveLength (length x) members.now }
    ensures none { IfNone result (AllBelow (length members.now) (HasCompositionWith members.now x)) }
    ensures first { IfSome result
        (IsFirstBad (length members.now) (HasNoCompositionWith members.now x) (HasCompositionWith members.now x)) }
{
    for (j, y) in members.iter().enumerate() {
        if !is_member(members, x.compose(*y)) {
            return Some(j);
        }
    }
    None
}

/// The members of a list, numbered from 0. A number is bad if the composition of its member with some member is no
/// member.
#[derive(Drop)]
struct UncomposedMembers<'a> {
    members: &'a [SignVec],
    elements: u8,
    ghost lengths: { HaveLength elements members.now },
}

impl Probe for UncomposedMembers<'_> {
    ghost use Rattle.std.specs.Prelude.{length};
    ghost use Rattle.om_members.specs.Scans.{AllBelow, IsBadBelow};
    ghost use Rattle.om_covectors.specs.Scans.{HasCompositionAt};

    ghost is_bad = { λ s. IsBadBelow (length s.members.now)
        (λ i. AllBelow (length s.members.now) (HasCompositionAt s.members.now i)) };

    fn bad(&self, k: u64) -> bool {
        if k >= self.members.len() as u64 {
            return false;
        }
        first_uncomposed_with(self.members, self.members[k as usize]).is_some()
    }
}

/// The places of the first two members whose composition is no member. If the list is so long that threads pay, the
/// first members are distributed among threads. For each second member, all members are scanned.
pub fn first_uncomposed<R: Threads + Sync>(
    rt: &R,
    members: &[SignVec],
    elements: u8,
) -> Option<(usize, usize)>
    requires lengths { HaveLength elements members.now }
    requires few { length members.now ≤ MAX_MEMBERS }
    ensures none { IfNone result
        (AllBelow (length members.now) (λ i. AllBelow (length members.now) (HasCompositionAt members.now i))) }
    ensures first { IfSome result
        (λ p. IsFirstBadPair (length members.now) (length members.now) (HasNoCompositionAt members.now)
        (HasCompositionAt members.now) p.0 p.1) }
{
    let uncomposed = UncomposedMembers { members, elements };
    let count = members.len() as u64;
    let i = first_bad_by_cost(rt, &uncomposed, count, count * count)? as usize;
    let j = first_uncomposed_with(members, members[i])?;
    Some((i, j))
}
