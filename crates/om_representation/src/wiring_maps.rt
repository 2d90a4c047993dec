//! Wirings, and their chirotopes.

ghost use Rattle.std.specs.Prelude.{◌≡◌, ◌≤◌, OnOk, IfOk, IfErr};
ghost use Rattle.om_document.specs.declared.body.Body.TheVariants as body;
ghost use Rattle.om_document.specs.Form.{AreBlocks};
ghost use Rattle.om_wiring.specs.Maps.{IsFlat, wiring_map};
ghost use Rattle.om_wiring.specs.Wirings.{IsWiring};
ghost use Rattle.om_representation.specs.Axioms.{IsRefusal, IsRefusedOn};

use super::document_refused::DocumentRefused;
use super::unrepresented::Unrepresented;
use om_chirotope::Chirotope;
use om_signs::{Block, List, MAX_ELEMENTS};
use om_wiring::{FlatError, Wiring, check, chirotope};
use std::alloc::Global;

/// The chirotope of a wiring with these blocks, or why there is none. [`Unrepresented::Memory`] comes only if the
/// blocks are a wiring that isn't flat, and memory for the signs runs out.
pub fn chirotope_of_wiring(
    alloc: Global,
    elements: u8,
    blocks: List<Block>,
) -> Result<Chirotope, Unrepresented>
    requires low { 1 ≤ elements }
    requires high { elements ≤ MAX_ELEMENTS }
    requires blocks { AreBlocks blocks }
    ensures value { IfOk result (λ c. c ≡ wiring_map elements blocks) }
    ensures axioms { OnOk result (IsWiring elements blocks) }
    ensures bent { OnOk result (IsFlat elements blocks → ⊥) }
    ensures refused { IfErr result (IsRefusal elements (body.Wiring blocks)) }
{
    match wiring_of_blocks(elements, blocks) {
        Ok(wiring) => bent_chirotope(alloc, &wiring),
        Err(why) => Err(Unrepresented::Refused(why)),
    }
}

/// The chirotope of a wiring, if it isn't flat.
fn bent_chirotope(alloc: Global, wiring: &Wiring) -> Result<Chirotope, Unrepresented>
    requires { IsWiring wiring.now.elements wiring.now.blocks }
    ensures value { IfOk result (λ c. c ≡ wiring_map wiring.now.elements wiring.now.blocks) }
    ensures bent { OnOk result (IsFlat wiring.now.elements wiring.now.blocks → ⊥) }
    ensures refused { IfErr result (IsRefusal wiring.now.elements (body.Wiring wiring.now.blocks)) }
{
    match chirotope(alloc, wiring) {
        Ok(chirotope) => Ok(chirotope),
        Err(FlatError::FlatRank) => Err(Unrepresented::Flat),
        Err(FlatError::Memory) => Err(Unrepresented::Memory),
    }
}

/// The wiring with these blocks on this many elements, from one to [`MAX_ELEMENTS`], or the first step that breaks a
/// rule, or that the last order isn't the reverse of the first.
pub fn wiring_of_blocks(elements: u8, blocks: List<Block>) -> Result<Wiring, DocumentRefused>
    requires low { 1 ≤ elements }
    requires high { elements ≤ MAX_ELEMENTS }
    requires blocks { AreBlocks blocks }
    ensures elements { IfOk result (λ w. w.elements ≡ elements) }
    ensures blocks { IfOk result (λ w. w.blocks ≡ blocks) }
    ensures axioms { OnOk result (IsWiring elements blocks) }
    ensures refused { IfErr result (IsRefusedOn elements (body.Wiring blocks)) }
{
    match check(elements, blocks) {
        Ok(wiring) => Ok(wiring),
        Err(bad) => Err(DocumentRefused::Wiring(bad.why)),
    }
}
