//! From a document to the oriented matroid that it gives.

ghost use Rattle.std.specs.Prelude.{◌≡◌, ◌↔◌, ◌≤◌, All, length, IsOk, OnOk, IfOk, IfErr};
ghost use Rattle.om_document.specs.Form.{IsInForm, AreMembersOn, AreBlocks, IsPoint, IsMapOn};
ghost use Rattle.om_circuits.specs.Axioms.{MeetsCircuitAxioms};
ghost use Rattle.om_covectors.specs.Axioms.{MeetsCovectorAxioms};
ghost use Rattle.om_vectors.specs.Realizations.{IsRankLow};
ghost use Rattle.om_wiring.specs.Maps.{IsFlat, wiring_map};
ghost use Rattle.om_wiring.specs.Wirings.{IsWiring};
ghost use Rattle.om_representation.specs.Points.{vectors_of, points_map};
ghost use Rattle.om_representation.specs.Axioms.{MeetsAxioms, IsFlatDocument, IsRefusal};
ghost use Rattle.om_chirotope.specs.Map.{map_of};
ghost use Rattle.om_chirotope.specs.Chirotope.{IsChirotope};
ghost use Rattle.om_representation.specs.Documents.{document_of, map_document, with_map, worked_on};

use super::document_refused::DocumentRefused;
use super::point_vectors::chirotope_of_points;
use super::unrepresented::Unrepresented;
use super::wiring_maps::chirotope_of_wiring;
use om_chirotope::Chirotope;
use om_circuits::{Circuits, Cocircuits};
use om_convert::{ReadCovError, ReadSetError, read_circuits, read_cocircuits, read_covectors};
use om_covectors::Covectors;
use om_document::{Body, Document};
use om_signs::{Block, List, MAX_ELEMENTS, RawMap, SignVec};
use std::alloc::Global;
use std::thread::Threads;

/// An oriented matroid, in one of four forms; points and wirings give their chirotope. The four forms are those of
/// Björner, Las Vergnas, Sturmfels, White and Ziegler, *Oriented Matroids*, chapters 3 and 4.
#[derive(Drop)]
pub enum Representation {
    Chirotope(Chirotope),
    Circuits(Circuits),
    Cocircuits(Cocircuits),
    Covectors(Covectors),
}

impl Representation {
    /// The number of elements.
    pub fn elements(&self) -> u8
        ensures value { result ≡ (document_of self.now).elements }
        ensures high { result ≤ MAX_ELEMENTS }
    {
        match self {
            Representation::Chirotope(chirotope) => chirotope.elements(),
            Representation::Circuits(circuits) => circuits.0.elements(),
            Representation::Cocircuits(cocircuits) => cocircuits.0.elements(),
            Representation::Covectors(covectors) => covectors.elements(),
        }
    }
}

/// The oriented matroid that a document in form gives, if it satisfies the axioms of its kind and isn't a flat wiring.
///
/// [`Unrepresented::Refused`] comes if the document fails its axioms, with the line that names the first violated
/// instance. [`Unrepresented::Flat`] comes if it is a flat wiring. [`Unrepresented::Memory`] comes only if points,
/// or a wiring that isn't flat, meet their axioms, and memory for the signs of their chirotope runs out. So a
/// document that fails its axioms is refused for that even if memory runs short, and a map or a list never ends
/// with `Memory`.
pub fn represent<R: Threads + Sync>(
    rt: &R,
    alloc: Global,
    document: Document,
) -> Result<Representation, Unrepresented>
    requires { IsInForm document }
    ensures accepted { OnOk result (MeetsAxioms document) }
    ensures bent { OnOk result (IsFlatDocument document → ⊥) }
    ensures value { IfOk result (λ r. document_of r ≡ worked_on document) }
    ensures refused { IfErr result (IsRefusal document.elements document.body) }
{
    let Document { elements, body, .. } = document;
    match body {
        Body::Chirotope(raw) => represent_map(rt, raw),
        Body::Circuits(list) => represent_circuits(rt, alloc, elements, list),
        Body::Cocircuits(list) => represent_cocircuits(rt, alloc, elements, list),
        Body::Covectors(list) => represent_covectors(rt, alloc, elements, list),
        Body::Wiring(blocks) => represent_wiring(alloc, elements, blocks),
        Body::Points(points) => represent_points(alloc, points.as_slice()),
    }
}

/// The oriented matroid of a wiring, through its chirotope, or why there is none.
fn represent_wiring(
    alloc: Global,
    elements: u8,
    blocks: List<Block>,
) -> Result<Representation, Unrepresented>
    requires low { 1 ≤ elements }
    requires high { elements ≤ MAX_ELEMENTS }
    requires blocks { AreBlocks blocks }
    ensures accepted { OnOk result (IsWiring elements blocks) }
    ensures bent { OnOk result (IsFlat elements blocks → ⊥) }
    ensures value { IfOk result (λ r. document_of r ≡ map_document (wiring_map elements blocks)) }
    ensures refused { IfErr result (IsRefusal elements (Body.Wiring blocks)) }
{
    let chirotope = chirotope_of_wiring(alloc, elements, blocks)?;
    Ok(Representation::Chirotope(chirotope))
}

/// The oriented matroid of points, through the chirotope of the signs of their triple products, or why there is
/// none.
fn represent_points(alloc: Global, points: &[[i64; 3]]) -> Result<Representation, Unrepresented>
    requires low { 1 ≤ length points.now }
    requires high { length points.now ≤ MAX_ELEMENTS }
    requires each { All IsPoint points.now }
    ensures accepted { OnOk result (IsRankLow (vectors_of points.now) → ⊥) }
    ensures value { IfOk result (λ r. document_of r ≡ map_document (points_map points.now)) }
    ensures refused { IfErr result (IsRefusal (length points.now) (Body.Points points.now)) }
{
    let chirotope = chirotope_of_points(alloc, points)?;
    Ok(Representation::Chirotope(chirotope))
}

/// The oriented matroid of a map that is a chirotope, or the line that refuses the map.
// never inlined, so that the tables of its callees aren't on the stack while other calls run
#[inline(never)]
fn represent_map<R: Threads + Sync>(rt: &R, raw: RawMap) -> Result<Representation, Unrepresented>
    requires low { 1 ≤ raw.elements }
    requires high { raw.elements ≤ MAX_ELEMENTS }
    requires whole { IsMapOn raw.elements raw }
    ensures accepted { IsOk result ↔ IsChirotope (map_of raw) }
    ensures value { IfOk result (λ r. document_of r ≡ map_document (map_of raw)) }
    ensures refused { IfErr result (IsRefusal raw.elements (Body.Chirotope raw)) }
{
    match om_chirotope::check(rt, raw) {
        Ok(chirotope) => Ok(Representation::Chirotope(chirotope)),
        Err(bad) => Err(Unrepresented::Refused(DocumentRefused::Map(bad.why))),
    }
}

/// The oriented matroid of a list of circuits, or why they are none.
// no part of its caller, so that the tables of its callees aren't on the stack while others run
#[inline(never)]
fn represent_circuits<R: Threads + Sync>(
    rt: &R,
    alloc: Global,
    elements: u8,
    list: List<SignVec>,
) -> Result<Representation, Unrepresented>
    requires low { 1 ≤ elements }
    requires high { elements ≤ MAX_ELEMENTS }
    requires members { AreMembersOn elements list }
    ensures accepted { OnOk result (MeetsCircuitAxioms list) }
    ensures value { IfOk result (λ r. document_of r ≡ with_map elements (Body.Circuits list)) }
    ensures refused { IfErr result (IsRefusal elements (Body.Circuits list)) }
{
    match read_circuits(rt, alloc, elements, list) {
        Ok(circuits) => Ok(Representation::Circuits(circuits)),
        Err(ReadSetError::Bad(bad)) => Err(Unrepresented::Refused(DocumentRefused::Circuits(
            bad.why,
        ))),
        // never, since a list is read whatever memory there is
        Err(ReadSetError::Memory(_)) => Err(Unrepresented::Memory),
    }
}

/// The oriented matroid of a list of cocircuits, or the line that refuses the list.
// never inlined, so that the tables of its callees aren't on the stack while other calls run
#[inline(never)]
fn represent_cocircuits<R: Threads + Sync>(
    rt: &R,
    alloc: Global,
    elements: u8,
    list: List<SignVec>,
) -> Result<Representation, Unrepresented>
    requires low { 1 ≤ elements }
    requires high { elements ≤ MAX_ELEMENTS }
    requires members { AreMembersOn elements list }
    ensures accepted { OnOk result (MeetsCircuitAxioms list) }
    ensures value { IfOk result (λ r. document_of r ≡ with_map elements (Body.Cocircuits list)) }
    ensures refused { IfErr result (IsRefusal elements (Body.Cocircuits list)) }
{
    match read_cocircuits(rt, alloc, elements, list) {
        Ok(cocircuits) => Ok(Representation::Cocircuits(cocircuits)),
        Err(ReadSetError::Bad(bad)) => Err(Unrepresented::Refused(DocumentRefused::Circuits(
            bad.why,
        ))),
        // never, since a list is read whatever memory there is
        Err(ReadSetError::Memory(_)) => Err(Unrepresented::Memory),
    }
}

/// The oriented matroid of a list of covectors, or why they are none.
// no part of its caller, so that the tables of its callees aren't on the stack while others run
#[inline(never)]
fn represent_covectors<R: Threads + Sync>(
    rt: &R,
    alloc: Global,
    elements: u8,
    list: List<SignVec>,
) -> Result<Representation, Unrepresented>
    requires low { 1 ≤ elements }
    requires high { elements ≤ MAX_ELEMENTS }
    requires members { AreMembersOn elements list }
    ensures accepted { OnOk result (MeetsCovectorAxioms list) }
    ensures value { IfOk result (λ r. document_of r ≡ with_map elements (Body.Covectors list)) }
    ensures refused { IfErr result (IsRefusal elements (Body.Covectors list)) }
{
    match read_covectors(rt, alloc, elements, list) {
        Ok(covectors) => Ok(Representation::Covectors(covectors)),
        Err(ReadCovError::Bad(bad)) => Err(Unrepresented::Refused(DocumentRefused::Covectors(
            bad.why,
        ))),
        // never, since a list is read whatever memory there is
        Err(ReadCovError::Memory(_)) => Err(Unrepresented::Memory),
    }
}
