//! The test whether a list satisfies the axioms.

ghost use Rattle.std.specs.Prelude.{◌≡◌, ◌↔◌, ◌≤◌, length, IsOk, IfOk, IfErr, IfSome, IfNone};
ghost use Rattle.om_covectors.specs.Axioms.{MeetsCovectorAxioms};
ghost use Rattle.om_members.specs.Listings.{HaveLength, AreDistinct};
ghost use Rattle.om_covectors.specs.Instances.{IsFirstViolatedCovectorAxiom};

use super::bad_cov::BadCov;
use super::closure::{first_uncomposed, has_zero};
use super::cov_refused::CovRefused;
use super::covectors::Covectors;
use super::elimination::first_blocked;
use om_members::first_without_negative;
use om_signs::{List, MAX_ELEMENTS, MAX_MEMBERS, SignVec};
use std::thread::Threads;

/// The first violated instance of the axioms, or None if the list meets them.
fn first_violated<R: Threads + Sync>(
    rt: &R,
    members: &[SignVec],
    elements: u8,
) -> Option<CovRefused>
    requires high { elements ≤ MAX_ELEMENTS }
    requires lengths { HaveLength elements members.now }
    requires few { length members.now ≤ MAX_MEMBERS }
    ensures none { IfNone result (MeetsCovectorAxioms members.now) }
    ensures first { IfSome result (IsFirstViolatedCovectorAxiom members.now) }
{
    if !has_zero(members) {
        return Some(CovRefused::NoZero);
    }
    if let Some(i) = first_without_negative(members) {
        return Some(CovRefused::NoNegative { i: i as u32 + 1 });
    }
    if let Some((i, j)) = first_uncomposed(rt, members, elements) {
        return Some(CovRefused::NoComposition {
            i: i as u32 + 1,
            j: j as u32 + 1,
        });
    }
    let (i, j, e) = first_blocked(rt, members, elements)?;
    Some(CovRefused::NoElimination {
        i: i as u32 + 1,
        j: j as u32 + 1,
        e,
    })
}

/// The covectors of this list, if its members satisfy the axioms of covectors. Otherwise the list is returned
/// unchanged with its first violated instance. Instances are ordered by the axiom (the zero vector, negatives,
/// compositions, elimination), then by positions in the list, then by element.
///
/// The members are distinct, at most [`MAX_MEMBERS`], and have `elements` signs each, from 1 to [`MAX_ELEMENTS`].
/// The call allocates no memory.
///
/// Source: Björner, Las Vergnas, Sturmfels, White and Ziegler, *Oriented Matroids*, chapter 4.
pub fn check<R: Threads + Sync>(
    rt: &R,
    elements: u8,
    list: List<SignVec>,
) -> Result<Covectors, BadCov>
    requires low { 1 ≤ elements }
    requires high { elements ≤ MAX_ELEMENTS }
    requires lengths { HaveLength elements list }
    requires distinct { AreDistinct list }
    requires few { length list ≤ MAX_MEMBERS }
    ensures accepted { IsOk result ↔ MeetsCovectorAxioms list }
    ensures elements { IfOk result (λ s. s.elements ≡ elements) }
    ensures members { IfOk result (λ s. s.members ≡ list) }
    ensures unchanged { IfErr result (λ b. b.list ≡ list) }
    ensures first { IfErr result (λ b. IsFirstViolatedCovectorAxiom list b.why) }
{
    match first_violated(rt, list.as_slice(), elements) {
        None => Ok(Covectors::lawful(elements, list)),
        Some(why) => Err(BadCov { list, why }),
    }
}
