//! Lists that are accepted through a chirotope.
//!
//! A map is proposed from the list, if this is faster than a scan. Suppose that it is a chirotope and that its list
//! has exactly the members of the given list. Then the given list satisfies the axioms. Otherwise nothing is known,
//! also if memory for the proposal runs out. Then the scan of the axioms decides, which needs no memory.

ghost use Rattle.std.specs.Prelude.{◌≡◌, ◌≤◌, length, IsTrue, IfOk, IfErr, IfSome, OnOk};
ghost use Rattle.om_circuits.specs.Axioms.{MeetsCircuitAxioms};
ghost use Rattle.om_covectors.specs.Axioms.{MeetsCovectorAxioms};
ghost use Rattle.om_members.specs.Listings.{HaveLength, AreDistinct};
ghost use Rattle.om_convert.specs.Hitting.{IsEachNormalOf};
ghost use Rattle.om_convert.specs.Reading.{IsSetReadError, IsCovReadError};

use super::convert_error::ConvertError;
use super::hitting::{minimal_meeting, missed_vector};
use super::propagation::propagated_map;
use super::read_error::{ReadCovError, ReadSetError};
use super::vectors::{all_cocircuits, all_covectors};
use om_chirotope::Chirotope;
use om_circuits::{Circuits, Cocircuits, SignedSet};
use om_covectors::{Covectors, minimal_vectors};
use om_signs::{List, MAX_ELEMENTS, MAX_MEMBERS, MAX_VALUES, NoMemory, SignVec};
use om_subsets::Subset;
use std::alloc::Global;
use std::thread::Threads;

/// The circuits in this list, in its order, if they satisfy the axioms of circuits. Otherwise the list is returned
/// unchanged with its first violated instance, as [`om_circuits::check`] gives it. The members are distinct, at
/// most [`MAX_MEMBERS`], and have `elements` signs each, from 1 to [`MAX_ELEMENTS`].
///
/// [`ReadSetError::Memory`] never comes: if memory runs out on the faster way, the scan decides, which needs none.
///
/// Source: Björner, Las Vergnas, Sturmfels, White and Ziegler, *Oriented Matroids*, chapter 3.
pub fn read_circuits<R: Threads + Sync>(
    rt: &R,
    alloc: Global,
    elements: u8,
    list: List<SignVec>,
) -> Result<Circuits, ReadSetError>
    requires low { 1 ≤ elements }
    requires high { elements ≤ MAX_ELEMENTS }
    requires lengths { HaveLength elements list }
    requires distinct { AreDistinct list }
    requires few { length list ≤ MAX_MEMBERS }
    ensures accepted { OnOk result (MeetsCircuitAxioms list) }
    ensures elements { IfOk result (λ c. c.0.elements ≡ elements) }
    ensures members { IfOk result (λ c. c.0.members ≡ list) }
    ensures refused { IfErr result (IsSetReadError list) }
{
    let set = read_set(rt, alloc, elements, list)?;
    Ok(Circuits(set))
}

/// The cocircuits in this list, in its order, if they satisfy the axioms of circuits, which are also those of
/// cocircuits. Otherwise the list is returned unchanged with its first violated instance, as [`om_circuits::check`]
/// gives it. The members are distinct, at most [`MAX_MEMBERS`], and have `elements` signs each, from 1 to
/// [`MAX_ELEMENTS`].
///
/// [`ReadSetError::Memory`] never comes: if memory runs out on the faster way, the scan decides, which needs none.
///
/// Source: Björner, Las Vergnas, Sturmfels, White and Ziegler, *Oriented Matroids*, chapter 3.
pub fn read_cocircuits<R: Threads + Sync>(
    rt: &R,
    alloc: Global,
    elements: u8,
    list: List<SignVec>,
) -> Result<Cocircuits, ReadSetError>
    requires low { 1 ≤ elements }
    requires high { elements ≤ MAX_ELEMENTS }
    requires lengths { HaveLength elements list }
    requires distinct { AreDistinct list }
    requires few { length list ≤ MAX_MEMBERS }
    ensures accepted { OnOk result (MeetsCircuitAxioms list) }
    ensures elements { IfOk result (λ c. c.0.elements ≡ elements) }
    ensures members { IfOk result (λ c. c.0.members ≡ list) }
    ensures refused { IfErr result (IsSetReadError list) }
{
    let set = read_set(rt, alloc, elements, list)?;
    Ok(Cocircuits(set))
}

/// The covectors in this list, in its order, if they satisfy the axioms of covectors. Otherwise the list is returned
/// unchanged with its first violated instance, as [`om_covectors::check`] gives it. The members are distinct, at
/// most [`MAX_MEMBERS`], and have `elements` signs each, from 1 to [`MAX_ELEMENTS`].
///
/// [`ReadCovError::Memory`] never comes: if memory runs out on the faster way, the scan decides, which needs none.
///
/// Source: Björner, Las Vergnas, Sturmfels, White and Ziegler, *Oriented Matroids*, chapter 4.
pub fn read_covectors<R: Threads + Sync>(
    rt: &R,
    alloc: Global,
    elements: u8,
    list: List<SignVec>,
) -> Result<Covectors, ReadCovError>
    requires low { 1 ≤ elements }
    requires high { elements ≤ MAX_ELEMENTS }
    requires lengths { HaveLength elements list }
    requires distinct { AreDistinct list }
    requires few { length list ≤ MAX_MEMBERS }
    ensures accepted { OnOk result (MeetsCovectorAxioms list) }
    ensures elements { IfOk result (λ c. c.elements ≡ elements) }
    ensures members { IfOk result (λ c. c.members ≡ list) }
    ensures refused { IfErr result (IsCovReadError list) }
{
    match are_covectors_of_proposal(rt, alloc, elements, list.as_slice()) {
        Ok(true) => Ok(Covectors::lawful(elements, list)),
        _ => match om_covectors::check(rt, elements, list) {
            Ok(covectors) => Ok(covectors),
            Err(bad) => Err(ReadCovError::Bad(bad)),
        },
    }
}

/// The set of the members of a list, for `read_circuits` and `read_cocircuits`. Circuits are the cocircuits of the
/// dual, so the same way serves both.
fn read_set<R: Threads + Sync>(
    rt: &R,
    alloc: Global,
    elements: u8,
    list: List<SignVec>,
) -> Result<SignedSet, ReadSetError>
    requires low { 1 ≤ elements }
    requires high { elements ≤ MAX_ELEMENTS }
    requires lengths { HaveLength elements list }
    requires distinct { AreDistinct list }
    requires few { length list ≤ MAX_MEMBERS }
    ensures accepted { OnOk result (MeetsCircuitAxioms list) }
    ensures elements { IfOk result (λ s. s.elements ≡ elements) }
    ensures members { IfOk result (λ s. s.members ≡ list) }
    ensures refused { IfErr result (IsSetReadError list) }
{
    match are_cocircuits_of_proposal(rt, alloc, elements, list.as_slice()) {
        Ok(true) => Ok(SignedSet::lawful(elements, list)),
        _ => match om_circuits::check(rt, elements, list) {
            Ok(set) => Ok(set),
            Err(bad) => Err(ReadSetError::Bad(bad)),
        },
    }
}

/// Whether the proposal shows that the vectors are cocircuits: it is a chirotope, and its cocircuits are the
/// vectors.
fn are_cocircuits_of_proposal<R: Threads + Sync>(
    rt: &R,
    alloc: Global,
    elements: u8,
    vectors: &[SignVec],
) -> Result<bool, NoMemory>
    requires low { 1 ≤ elements }
    requires high { elements ≤ MAX_ELEMENTS }
    requires lengths { HaveLength elements vectors.now }
    requires distinct { AreDistinct vectors.now }
    ensures { IfOk result (λ seen. IsTrue seen → MeetsCircuitAxioms vectors.now) }
{
    match proposed_chirotope(rt, alloc, elements, vectors, vectors.len())? {
        None => Ok(false),
        Some(chi) => are_cocircuits_of(alloc, &chi, vectors),
    }
}

/// Whether the vectors are the cocircuits of a chirotope. False also if the chirotope has too many.
fn are_cocircuits_of(alloc: Global, chi: &Chirotope, vectors: &[SignVec]) -> Result<bool, NoMemory>
    requires { AreDistinct vectors.now }
    ensures { IfOk result (λ seen. IsTrue seen → MeetsCircuitAxioms vectors.now) }
{
    match all_cocircuits(alloc, chi) {
        Ok(cocircuits) => Ok(cocircuits.is_set_of(vectors)),
        Err(error) => match error {
            ConvertError::TooMany { .. } => Ok(false),
            _ => Err(error.memory_alone()),
        },
    }
}

/// Whether the proposal from the vectors of minimal support shows that the vectors are covectors.
fn are_covectors_of_proposal<R: Threads + Sync>(
    rt: &R,
    alloc: Global,
    elements: u8,
    vectors: &[SignVec],
) -> Result<bool, NoMemory>
    requires low { 1 ≤ elements }
    requires high { elements ≤ MAX_ELEMENTS }
    requires lengths { HaveLength elements vectors.now }
    requires distinct { AreDistinct vectors.now }
    ensures { IfOk result (λ seen. IsTrue seen → MeetsCovectorAxioms vectors.now) }
{
    let minimal = minimal_vectors(alloc, vectors)?;
    match proposed_chirotope(rt, alloc, elements, minimal.as_slice(), vectors.len())? {
        None => Ok(false),
        Some(chi) => are_covectors_of(alloc, &chi, vectors),
    }
}

/// Whether the vectors are the covectors of a chirotope. False also if the chirotope has too many.
fn are_covectors_of(alloc: Global, chi: &Chirotope, vectors: &[SignVec]) -> Result<bool, NoMemory>
    requires { AreDistinct vectors.now }
    ensures { IfOk result (λ seen. IsTrue seen → MeetsCovectorAxioms vectors.now) }
{
    match all_covectors(alloc, chi) {
        Ok(covectors) => Ok(covectors.is_set_of(vectors)),
        Err(error) => match error {
            ConvertError::TooMany { .. } => Ok(false),
            _ => Err(error.memory_alone()),
        },
    }
}

/// How many triples of members a scan tests in the time of one value of a proposed map.
const TRIPLES_PER_VALUE: usize = 1_000;

/// Whether a map with `values` values is proposed for a list of `members` members: it has at most [`MAX_VALUES`]
/// values, and takes less time than the scan of the list.
fn is_proposed(members: usize, values: u32) -> bool
    ensures { IsTrue result → values ≤ MAX_VALUES }
{
    let triples = members.saturating_mul(members).saturating_mul(members);
    values <= MAX_VALUES && values as usize <= triples / TRIPLES_PER_VALUE
}

/// The chirotope whose cocircuits the vectors may be, for a list of `members` members. It is the map whose signs
/// the vectors carry from set to set, if this map is a chirotope. None also if some vector is zero, and if no map
/// is proposed.
fn proposed_chirotope<R: Threads + Sync>(
    rt: &R,
    alloc: Global,
    elements: u8,
    vectors: &[SignVec],
    members: usize,
) -> Result<Option<Chirotope>, NoMemory>
    requires low { 1 ≤ elements }
    requires high { elements ≤ MAX_ELEMENTS }
    requires lengths { HaveLength elements vectors.now }
    ensures elements { IfOk result (λ found. IfSome found (λ m. m.elements ≡ elements)) }
    ensures normal { IfOk result (λ found. IfSome found (IsEachNormalOf elements vectors.now)) }
{
    if missed_vector(vectors, Subset::first(elements, elements)).is_some() {
        return Ok(None);
    }
    let rank = minimal_meeting(elements, vectors).size();
    if !is_proposed(members, Subset::choose(elements, rank)) {
        return Ok(None);
    }
    let raw = propagated_map(alloc, vectors, rank, elements)?;
    match om_chirotope::check(rt, raw) {
        Ok(chi) => Ok(Some(chi)),
        Err(_) => Ok(None),
    }
}
