//! The test whether a list satisfies the axioms.

ghost use Rattle.std.specs.Prelude.{◌≡◌, ◌↔◌, ◌≤◌, length, IsOk, IfOk, IfErr, IfSome, IfNone};
ghost use Rattle.om_circuits.specs.Axioms.{MeetsCircuitAxioms};
ghost use Rattle.om_members.specs.Listings.{HaveLength, AreDistinct};
ghost use Rattle.om_circuits.specs.Instances.{IsFirstViolated};

use super::bad_set::BadSet;
use super::elimination::first_blocked;
use super::set_refused::SetRefused;
use super::signed_set::SignedSet;
use super::supports::{first_nested, first_zero};
use om_members::first_without_negative;
use om_signs::{List, MAX_ELEMENTS, MAX_MEMBERS, SignVec};
use std::thread::Threads;

/// The first violated instance of the axioms, or None if the list meets them.
fn first_violated<R: Threads + Sync>(
    rt: &R,
    members: &[SignVec],
    elements: u8,
) -> Option<SetRefused>
    requires high { elements ≤ MAX_ELEMENTS }
    requires lengths { HaveLength elements members.now }
    requires few { length members.now ≤ MAX_MEMBERS }
    ensures none { IfNone result (MeetsCircuitAxioms members.now) }
    ensures first { IfSome result (IsFirstViolated members.now) }
{
    if let Some(i) = first_zero(members) {
        return Some(SetRefused::Zero { i: i as u32 + 1 });
    }
    if let Some(i) = first_without_negative(members) {
        return Some(SetRefused::NoNegative { i: i as u32 + 1 });
    }
    if let Some((i, j)) = first_nested(rt, members) {
        return Some(SetRefused::Nested {
            i: i as u32 + 1,
            j: j as u32 + 1,
        });
    }
    let (i, j, e) = first_blocked(rt, members, elements)?;
    Some(SetRefused::NoElimination {
        i: i as u32 + 1,
        j: j as u32 + 1,
        e,
    })
}

/// The set of these members, if they satisfy the axioms of circuits. Otherwise the list is returned unchanged with its
/// first violated instance. Instances are ordered by the axiom (no zero vector, negatives, supports, elimination),
/// then by positions in the list, then by element.
///
/// The members are distinct, at most [`MAX_MEMBERS`], and have `elements` signs each, from 1 to [`MAX_ELEMENTS`].
/// The call allocates no memory.
///
/// Source: Björner, Las Vergnas, Sturmfels, White and Ziegler, *Oriented Matroids*, chapter 3.
pub fn check<R: Threads + Sync>(
    rt: &R,
    elements: u8,
    list: List<SignVec>,
) -> Result<SignedSet, BadSet>
    requires low { 1 ≤ elements }
    requires high { elements ≤ MAX_ELEMENTS }
    requires lengths { HaveLength elements list }
    requires distinct { AreDistinct list }
    requires few { length list ≤ MAX_MEMBERS }
    ensures accepted { IsOk result ↔ MeetsCircuitAxioms list }
    ensures elements { IfOk result (λ s. s.elements ≡ elements) }
    ensures members { IfOk result (λ s. s.members ≡ list) }
    ensures unchanged { IfErr result (λ b. b.list ≡ list) }
    ensures first { IfErr result (λ b. IsFirstViolated list b.why) }
{
    match first_violated(rt, list.as_slice(), elements) {
        None => Ok(SignedSet::lawful(elements, list)),
        Some(why) => Err(BadSet { list, why }),
    }
}
