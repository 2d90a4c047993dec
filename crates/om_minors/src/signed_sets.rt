//! Minors and reorientations of a list of circuits or of cocircuits.

ghost use Rattle.std.specs.Prelude.{◌≡◌, ◌≤◌, ◌<◌, ◌+◌, ◌^◌, length, IfOk, map};
ghost use Rattle.std.specs.List.{Contains};
ghost use Rattle.om_signs.specs.SignVec.{flip};
ghost use Rattle.om_circuits.specs.SignedSets.{IsSignedSet};
ghost use Rattle.om_denotation.specs.Compositions.{IsOfLeastSupport};
ghost use Rattle.om_denotation.specs.Listings.{AreAllOf};
ghost use Rattle.om_denotation.specs.Operations.{IsWithout, IsZeroWithout};

use super::dropping::{without_place, zero_without_place};
use super::flipping::flipped;
use om_circuits::SignedSet;
use om_covectors::minimal_vectors;
use om_signs::NoMemory;
use std::alloc::Global;

/// The members that are 0 at e, without their sign there: the circuits of the deletion, or the cocircuits of the
/// contraction.
pub fn zero_part(alloc: Global, set: &SignedSet, e: u8) -> Result<SignedSet, NoMemory>
    requires low { 1 ≤ e }
    requires high { e ≤ set.now.elements }
    requires several { 2 ≤ set.now.elements }
    ensures elements { IfOk result (λ d. d.elements + 1 ≡ set.now.elements) }
    ensures members { IfOk result (λ d.
        AreAllOf (IsZeroWithout set.now.elements e (Contains set.now.members)) d.members) }
    ensures no_more { IfOk result (λ d. length d.members ≤ length set.now.members) }
{
    let elements = set.elements();
    let list = zero_without_place(alloc, set.members(), e)?;
    Ok(SignedSet::lawful(elements - 1, list))
}

/// The nonzero vectors of minimal support among the members without their sign at e, each once: the cocircuits of
/// the deletion, or the circuits of the contraction.
pub fn least_part(alloc: Global, set: &SignedSet, e: u8) -> Result<SignedSet, NoMemory>
    requires low { 1 ≤ e }
    requires high { e ≤ set.now.elements }
    requires several { 2 ≤ set.now.elements }
    ensures elements { IfOk result (λ d. d.elements + 1 ≡ set.now.elements) }
    ensures members { IfOk result (λ d.
        AreAllOf (IsOfLeastSupport (IsWithout set.now.elements e (Contains set.now.members))) d.members) }
    ensures no_more { IfOk result (λ d. length d.members ≤ length set.now.members) }
{
    let elements = set.elements();
    let without = without_place(alloc, set.members(), e)?;
    let list = minimal_vectors(alloc, without.as_slice())?;
    Ok(SignedSet::lawful(elements - 1, list))
}

/// The members with their signs at the elements of the mask negated, in their order.
pub fn reoriented(set: SignedSet, mask: u32) -> SignedSet
    requires { mask < 2 ^ set.elements }
    ensures elements { result.elements ≡ set.elements }
    ensures members { result.members ≡ map (flip mask) set.members }
    ensures lawful { IsSignedSet set.elements set.members }
{
    let elements = set.elements();
    SignedSet::lawful(elements, flipped(set.into_list(), mask))
}
