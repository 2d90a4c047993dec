//! Deletion, contraction and reorientation of cocircuits.

ghost use Rattle.std.specs.Prelude.{◌≡◌, ◌≤◌, ◌<◌, ◌+◌, ◌^◌, ◌↔◌, length, IfOk, IsErrOf, map};
ghost use Rattle.std.specs.List.{Contains};
ghost use Rattle.om_signs.specs.SignVec.{flip};
ghost use Rattle.om_denotation.specs.Compositions.{IsOfLeastSupport};
ghost use Rattle.om_denotation.specs.Covectors.{IsCovectorOfCocircuits};
ghost use Rattle.om_denotation.specs.Listings.{AreAllOf};
ghost use Rattle.om_denotation.specs.Operations.{IsWithout, IsZeroWithout, IsDeletion, IsContraction, IsReorientation};

use super::minor_error::MinorError;
use super::signed_sets::{least_part, reoriented, zero_part};
use om_circuits::Cocircuits;
use std::alloc::Global;

/// The cocircuits of the deletion of e: the nonzero vectors of minimal support among the cocircuits without their
/// sign at e, each once. The elements after e are moved down by one, and e is from 1 to the number of elements.
/// Memory for the list comes from `alloc`.
///
/// [`MinorError::LastElement`] comes exactly if there is only one element, and [`MinorError::Memory`] only if
/// memory runs out.
///
/// Source: Björner, Las Vergnas, Sturmfels, White and Ziegler, *Oriented Matroids*, chapter 3.
pub fn delete_cocircuits(alloc: Global, c: &Cocircuits, e: u8) -> Result<Cocircuits, MinorError>
    requires low { 1 ≤ e }
    requires high { e ≤ c.now.0.elements }
    ensures last_element { IsErrOf result MinorError.LastElement ↔ (c.now.0.elements ≡ 1) }
    ensures elements { IfOk result (λ d. d.0.elements + 1 ≡ c.now.0.elements) }
    ensures members { IfOk result (λ d.
        AreAllOf (IsOfLeastSupport (IsWithout c.now.0.elements e (Contains c.now.0.members))) d.0.members) }
    ensures no_more { IfOk result (λ d. length d.0.members ≤ length c.now.0.members) }
    ensures deletion { IfOk result (λ d.
        IsDeletion c.now.0.elements e (IsCovectorOfCocircuits c.now.0) (IsCovectorOfCocircuits d.0)) }
{
    if c.0.elements() == 1 {
        return Err(MinorError::LastElement);
    }
    Ok(Cocircuits(least_part(alloc, &c.0, e)?))
}

/// The cocircuits of the contraction of e: the cocircuits that are 0 at e, without their sign there. The elements
/// after e are moved down by one, and e is from 1 to the number of elements. Memory for the list comes from
/// `alloc`.
///
/// [`MinorError::LastElement`] comes exactly if there is only one element, and [`MinorError::Memory`] only if
/// memory runs out.
///
/// Source: Björner, Las Vergnas, Sturmfels, White and Ziegler, *Oriented Matroids*, chapter 3.
pub fn contract_cocircuits(alloc: Global, c: &Cocircuits, e: u8) -> Result<Cocircuits, MinorError>
    requires low { 1 ≤ e }
    requires high { e ≤ c.now.0.elements }
    ensures last_element { IsErrOf result MinorError.LastElement ↔ (c.now.0.elements ≡ 1) }
    ensures elements { IfOk result (λ d. d.0.elements + 1 ≡ c.now.0.elements) }
    ensures members { IfOk result (λ d.
        AreAllOf (IsZeroWithout c.now.0.elements e (Contains c.now.0.members)) d.0.members) }
    ensures no_more { IfOk result (λ d. length d.0.members ≤ length c.now.0.members) }
    ensures contraction { IfOk result (λ d.
        IsContraction c.now.0.elements e (IsCovectorOfCocircuits c.now.0) (IsCovectorOfCocircuits d.0)) }
{
    if c.0.elements() == 1 {
        return Err(MinorError::LastElement);
    }
    Ok(Cocircuits(zero_part(alloc, &c.0, e)?))
}

/// The cocircuits of the reorientation of the elements of a mask: the cocircuits with their signs at these elements
/// negated, in their order. The mask names elements of the oriented matroid: its bit e - 1 stands for element e.
/// The call allocates no memory.
///
/// Source: Björner, Las Vergnas, Sturmfels, White and Ziegler, *Oriented Matroids*, chapter 3.
pub fn reorient_cocircuits(c: Cocircuits, mask: u32) -> Cocircuits
    requires { mask < 2 ^ c.0.elements }
    ensures elements { result.0.elements ≡ c.0.elements }
    ensures members { result.0.members ≡ map (flip mask) c.0.members }
    ensures reorientation { IsReorientation c.0.elements mask (IsCovectorOfCocircuits c.0)
        (IsCovectorOfCocircuits result.0) }
{
    Cocircuits(reoriented(c.0, mask))
}
