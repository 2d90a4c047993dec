//! Deletion, contraction and reorientation of covectors.

ghost use Rattle.std.specs.Prelude.{◌≡◌, ◌≤◌, ◌<◌, ◌+◌, ◌^◌, ◌↔◌, length, IfOk, IsErrOf, map};
ghost use Rattle.std.specs.List.{Contains};
ghost use Rattle.om_signs.specs.SignVec.{flip};
ghost use Rattle.om_denotation.specs.Covectors.{IsCovectorOfCovectors};
ghost use Rattle.om_denotation.specs.Listings.{AreAllOf};
ghost use Rattle.om_denotation.specs.Operations.{IsWithout, IsZeroWithout, IsDeletion, IsContraction, IsReorientation};

use super::dropping::{without_place, zero_without_place};
use super::flipping::flipped;
use super::minor_error::MinorError;
use om_covectors::Covectors;
use std::alloc::Global;

/// The covectors of the deletion of e: the covectors without their sign at e, each once. The elements after e are
/// moved down by one, and e is from 1 to the number of elements. Memory for the list comes from `alloc`.
///
/// [`MinorError::LastElement`] comes exactly if there is only one element, and [`MinorError::Memory`] only if
/// memory runs out.
///
/// Source: Björner, Las Vergnas, Sturmfels, White and Ziegler, *Oriented Matroids*, chapters 3 and 4.
pub fn delete_covectors(alloc: Global, c: &Covectors, e: u8) -> Result<Covectors, MinorError>
    requires low { 1 ≤ e }
    requires high { e ≤ c.now.elements }
    ensures last_element { IsErrOf result MinorError.LastElement ↔ (c.now.elements ≡ 1) }
    ensures elements { IfOk result (λ d. d.elements + 1 ≡ c.now.elements) }
    ensures members { IfOk result (λ d. AreAllOf (IsWithout c.now.elements e (Contains c.now.members)) d.members) }
    ensures no_more { IfOk result (λ d. length d.members ≤ length c.now.members) }
    ensures deletion { IfOk result (λ d.
        IsDeletion c.now.elements e (IsCovectorOfCovectors c.now) (IsCovectorOfCovectors d)) }
{
    let elements = c.elements();
    if elements == 1 {
        return Err(MinorError::LastElement);
    }
    let list = without_place(alloc, c.members(), e)?;
    Ok(Covectors::lawful(elements - 1, list))
}

/// The covectors of the contraction of e: the covectors that are 0 at e, without their sign there. The elements
/// after e are moved down by one, and e is from 1 to the number of elements. Memory for the list comes from
/// `alloc`.
///
/// [`MinorError::LastElement`] comes exactly if there is only one element, and [`MinorError::Memory`] only if
/// memory runs out.
///
/// Source: Björner, Las Vergnas, Sturmfels, White and Ziegler, *Oriented Matroids*, chapters 3 and 4.
pub fn contract_covectors(alloc: Global, c: &Covectors, e: u8) -> Result<Covectors, MinorError>
    requires low { 1 ≤ e }
    requires high { e ≤ c.now.elements }
    ensures last_element { IsErrOf result MinorError.LastElement ↔ (c.now.elements ≡ 1) }
    ensures elements { IfOk result (λ d. d.elements + 1 ≡ c.now.elements) }
    ensures members { IfOk result (λ d. AreAllOf (IsZeroWithout c.now.elements e (Contains c.now.members)) d.members) }
    ensures no_more { IfOk result (λ d. length d.members ≤ length c.now.members) }
    ensures contraction { IfOk result (λ d.
        IsContraction c.now.elements e (IsCovectorOfCovectors c.now) (IsCovectorOfCovectors d)) }
{
    let elements = c.elements();
    if elements == 1 {
        return Err(MinorError::LastElement);
    }
    let list = zero_without_place(alloc, c.members(), e)?;
    Ok(Covectors::lawful(elements - 1, list))
}

/// The covectors of the reorientation of the elements of a mask: the covectors with their signs at these elements
/// negated, in their order. The mask names elements of the oriented matroid: its bit e - 1 stands for element e.
/// The call allocates no memory.
///
/// Source: Björner, Las Vergnas, Sturmfels, White and Ziegler, *Oriented Matroids*, chapter 3.
pub fn reorient_covectors(c: Covectors, mask: u32) -> Covectors
    requires { mask < 2 ^ c.elements }
    ensures elements { result.elements ≡ c.elements }
    ensures members { result.members ≡ map (flip mask) c.members }
    ensures reorientation { IsReorientation c.elements mask (IsCovectorOfCovectors c) (IsCovectorOfCovectors result) }
{
    let elements = c.elements();
    Covectors::lawful(elements, flipped(c.into_list(), mask))
}
