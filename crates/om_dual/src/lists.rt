//! Duals of circuits, of cocircuits and of covectors.

ghost use Rattle.std.specs.Prelude.{◌≡◌, IfOk, IfErr, OnOk};
ghost use Rattle.std.specs.List.{Contains};
ghost use Rattle.om_convert.specs.Limits.{IsListCause, HasFewValuesFor, IsWithinLimit};
ghost use Rattle.om_denotation.specs.Covectors.{IsCovectorOfCircuits, IsCovectorOfCocircuits, IsCovectorOfCovectors};
ghost use Rattle.om_denotation.specs.Listings.{AreAllOf};
ghost use Rattle.om_denotation.specs.Only.{AreOnlyCircuits, AreOnlyCocircuits, AreOnlyCovectors};
ghost use Rattle.om_denotation.specs.Operations.{IsDual};
ghost use Rattle.om_denotation.specs.Vectors.{IsVectorOf};

use om_circuits::{Circuits, Cocircuits, SignedSet};
use om_convert::{ConvertError, chirotope_to_covectors, covectors_to_chirotope};
use om_covectors::Covectors;
use om_denotation::dual;
use std::alloc::Global;

/// The cocircuits of the dual, which are the same members. Up to its order, no other list of cocircuits denotes the
/// dual. The call allocates no memory.
///
/// Source: Björner, Las Vergnas, Sturmfels, White and Ziegler, *Oriented Matroids*, chapter 3.
pub fn dual_circuits(c: Circuits) -> Cocircuits
    ensures members { result.0 ≡ c.0 }
    ensures dual { IsDual c.0.elements (IsCovectorOfCircuits c.0) (IsCovectorOfCocircuits result.0) }
    ensures unique { AreOnlyCocircuits result.0 }
{
    let elements = c.0.elements();
    Cocircuits(SignedSet::lawful(elements, c.0.into_list()))
}

/// The circuits of the dual, which are the same members. Up to its order, no other list of circuits denotes the
/// dual. The call allocates no memory.
///
/// Source: Björner, Las Vergnas, Sturmfels, White and Ziegler, *Oriented Matroids*, chapter 3.
pub fn dual_cocircuits(c: Cocircuits) -> Circuits
    ensures members { result.0 ≡ c.0 }
    ensures dual { IsDual c.0.elements (IsCovectorOfCocircuits c.0) (IsCovectorOfCircuits result.0) }
    ensures unique { AreOnlyCircuits result.0 }
{
    let elements = c.0.elements();
    Circuits(SignedSet::lawful(elements, c.0.into_list()))
}

/// The covectors of the dual: the sign vectors that are orthogonal to every covector. Up to its order, no other
/// list of covectors denotes the dual. Memory for the list comes from `alloc`.
///
/// [`ConvertError::TooWide`] comes exactly if the chirotope of these covectors has more than
/// [`MAX_VALUES`](om_signs::MAX_VALUES) values, and gives their number. Otherwise [`ConvertError::TooMany`] comes
/// if the dual has more covectors than [`MAX_MEMBERS`](om_signs::MAX_MEMBERS), and memory lasts until the first one
/// too many. It gives this limit. [`ConvertError::Memory`] comes only if memory runs out.
///
/// Source: Björner, Las Vergnas, Sturmfels, White and Ziegler, *Oriented Matroids*, chapter 3.
pub fn dual_covectors(alloc: Global, c: &Covectors) -> Result<Covectors, ConvertError>
    ensures elements { IfOk result (λ d. d.elements ≡ c.now.elements) }
    ensures members { IfOk result (λ d. AreAllOf (IsVectorOf c.now.elements (Contains c.now.members)) d.members) }
    ensures dual { IfOk result (λ d. IsDual c.now.elements (Contains c.now.members) (IsCovectorOfCovectors d)) }
    ensures unique { IfOk result AreOnlyCovectors }
    ensures few { OnOk result (IsWithinLimit (IsVectorOf c.now.elements (Contains c.now.members))) }
    ensures narrow { OnOk result (HasFewValuesFor c.now.elements (Contains c.now.members)) }
    ensures refused { IfErr result
        (IsListCause c.now.elements (Contains c.now.members) (IsVectorOf c.now.elements (Contains c.now.members))) }
{
    let chi = covectors_to_chirotope(alloc, c)?;
    let turned = dual(alloc, &chi)?;
    let covectors = chirotope_to_covectors(alloc, &turned)?;
    Ok(covectors)
}
