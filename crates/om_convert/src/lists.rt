//! Conversions of lists to other lists, through chirotopes.

ghost use Rattle.std.specs.Prelude.{◌≡◌, IfOk, IfErr, OnOk};
ghost use Rattle.std.specs.List.{Contains};
ghost use Rattle.om_denotation.specs.Compositions.{IsOfLeastSupport};
ghost use Rattle.om_denotation.specs.Covectors.{IsCovectorOfCircuits, IsCovectorOfCocircuits, IsCovectorOfCovectors};
ghost use Rattle.om_denotation.specs.Denotation.{DenoteTheSame};
ghost use Rattle.om_denotation.specs.Listings.{AreAllOf};
ghost use Rattle.om_denotation.specs.Only.{AreOnlyCircuits, AreOnlyCocircuits, AreOnlyCovectors};
ghost use Rattle.om_denotation.specs.Vectors.{IsVectorOf};
ghost use Rattle.om_convert.specs.Limits.{IsListCause, HasFewValuesFor, IsWithinLimit};

use super::chirotopes::{chirotope_to_circuits, chirotope_to_cocircuits, chirotope_to_covectors};
use super::convert_error::ConvertError;
use super::list_chirotopes::{
    circuits_to_chirotope, cocircuits_to_chirotope, covectors_to_chirotope,
};
use om_circuits::{Circuits, Cocircuits};
use om_covectors::Covectors;
use std::alloc::Global;

/// The cocircuits of the oriented matroid with these circuits: its nonzero covectors of minimal support. Both have
/// the same elements and denote the same oriented matroid, and up to its order no other list of cocircuits does.
/// Memory for the list comes from `alloc`.
///
/// [`ConvertError::TooWide`] comes exactly if the chirotope has more than [`MAX_VALUES`](om_signs::MAX_VALUES)
/// values, and gives their number. Otherwise [`ConvertError::TooMany`] comes if there are more cocircuits than
/// [`MAX_MEMBERS`](om_signs::MAX_MEMBERS), and memory lasts until the first one too many. It gives this limit.
/// [`ConvertError::Memory`] comes only if memory runs out.
///
/// Source: Björner, Las Vergnas, Sturmfels, White and Ziegler, *Oriented Matroids*, chapter 3.
pub fn circuits_to_cocircuits(alloc: Global, c: &Circuits) -> Result<Cocircuits, ConvertError>
    ensures elements { IfOk result (λ d. d.0.elements ≡ c.now.0.elements) }
    ensures members { IfOk result (λ d. AreAllOf (IsOfLeastSupport (IsCovectorOfCircuits c.now.0)) d.0.members) }
    ensures same { IfOk result (λ d.
        DenoteTheSame c.now.0.elements (IsCovectorOfCircuits c.now.0) (IsCovectorOfCocircuits d.0)) }
    ensures unique { IfOk result (λ d. AreOnlyCocircuits d.0) }
    ensures few { OnOk result (IsWithinLimit (IsOfLeastSupport (IsCovectorOfCircuits c.now.0))) }
    ensures narrow { OnOk result (HasFewValuesFor c.now.0.elements (IsCovectorOfCircuits c.now.0)) }
    ensures refused { IfErr result
        (IsListCause c.now.0.elements (IsCovectorOfCircuits c.now.0)
        (IsOfLeastSupport (IsCovectorOfCircuits c.now.0))) }
{
    let chi = circuits_to_chirotope(alloc, c)?;
    let cocircuits = chirotope_to_cocircuits(alloc, &chi)?;
    Ok(cocircuits)
}

/// The covectors of the oriented matroid with these circuits. Both have the same elements and denote the same
/// oriented matroid, and up to its order no other list of covectors does. Memory for the list comes from `alloc`.
///
/// [`ConvertError::TooWide`] comes exactly if the chirotope has more than [`MAX_VALUES`](om_signs::MAX_VALUES)
/// values, and gives their number. Otherwise [`ConvertError::TooMany`] comes if there are more covectors than
/// [`MAX_MEMBERS`](om_signs::MAX_MEMBERS), and memory lasts until the first one too many. It gives this limit.
/// [`ConvertError::Memory`] comes only if memory runs out.
///
/// Source: Björner, Las Vergnas, Sturmfels, White and Ziegler, *Oriented Matroids*, chapters 3 and 4.
pub fn circuits_to_covectors(alloc: Global, c: &Circuits) -> Result<Covectors, ConvertError>
    ensures elements { IfOk result (λ d. d.elements ≡ c.now.0.elements) }
    ensures members { IfOk result (λ d. AreAllOf (IsCovectorOfCircuits c.now.0) d.members) }
    ensures same { IfOk result (λ d.
        DenoteTheSame c.now.0.elements (IsCovectorOfCircuits c.now.0) (IsCovectorOfCovectors d)) }
    ensures unique { IfOk result AreOnlyCovectors }
    ensures few { OnOk result (IsWithinLimit (IsCovectorOfCircuits c.now.0)) }
    ensures narrow { OnOk result (HasFewValuesFor c.now.0.elements (IsCovectorOfCircuits c.now.0)) }
    ensures refused { IfErr result (IsListCause c.now.0.elements (IsCovectorOfCircuits c.now.0)
        (IsCovectorOfCircuits c.now.0)) }
{
    let chi = circuits_to_chirotope(alloc, c)?;
    let covectors = chirotope_to_covectors(alloc, &chi)?;
    Ok(covectors)
}

/// The covectors of the oriented matroid with these cocircuits. Both have the same elements and denote the same
/// oriented matroid, and up to its order no other list of covectors does. Memory for the list comes from `alloc`.
///
/// [`ConvertError::TooWide`] comes exactly if the chirotope has more than [`MAX_VALUES`](om_signs::MAX_VALUES)
/// values, and gives their number. Otherwise [`ConvertError::TooMany`] comes if there are more covectors than
/// [`MAX_MEMBERS`](om_signs::MAX_MEMBERS), and memory lasts until the first one too many. It gives this limit.
/// [`ConvertError::Memory`] comes only if memory runs out.
///
/// Source: Björner, Las Vergnas, Sturmfels, White and Ziegler, *Oriented Matroids*, chapters 3 and 4.
pub fn cocircuits_to_covectors(alloc: Global, c: &Cocircuits) -> Result<Covectors, ConvertError>
    ensures elements { IfOk result (λ d. d.elements ≡ c.now.0.elements) }
    ensures members { IfOk result (λ d. AreAllOf (IsCovectorOfCocircuits c.now.0) d.members) }
    ensures same { IfOk result (λ d.
        DenoteTheSame c.now.0.elements (IsCovectorOfCocircuits c.now.0) (IsCovectorOfCovectors d)) }
    ensures unique { IfOk result AreOnlyCovectors }
    ensures few { OnOk result (IsWithinLimit (IsCovectorOfCocircuits c.now.0)) }
    ensures narrow { OnOk result (HasFewValuesFor c.now.0.elements (IsCovectorOfCocircuits c.now.0)) }
    ensures refused { IfErr result
        (IsListCause c.now.0.elements (IsCovectorOfCocircuits c.now.0) (IsCovectorOfCocircuits c.now.0)) }
{
    let chi = cocircuits_to_chirotope(alloc, c)?;
    let covectors = chirotope_to_covectors(alloc, &chi)?;
    Ok(covectors)
}

/// The circuits of the oriented matroid with these cocircuits: its nonzero vectors of minimal support. Both have
/// the same elements and denote the same oriented matroid, and up to its order no other list of circuits does.
/// Memory for the list comes from `alloc`.
///
/// [`ConvertError::TooWide`] comes exactly if the chirotope has more than [`MAX_VALUES`](om_signs::MAX_VALUES)
/// values, and gives their number. Otherwise [`ConvertError::TooMany`] comes if there are more circuits than
/// [`MAX_MEMBERS`](om_signs::MAX_MEMBERS), and memory lasts until the first one too many. It gives this limit.
/// [`ConvertError::Memory`] comes only if memory runs out.
///
/// Source: Björner, Las Vergnas, Sturmfels, White and Ziegler, *Oriented Matroids*, chapter 3.
pub fn cocircuits_to_circuits(alloc: Global, c: &Cocircuits) -> Result<Circuits, ConvertError>
    ensures elements { IfOk result (λ d. d.0.elements ≡ c.now.0.elements) }
    ensures members { IfOk result
        (λ d. AreAllOf (IsOfLeastSupport (IsVectorOf c.now.0.elements (IsCovectorOfCocircuits c.now.0))) d.0.members) }
    ensures same { IfOk result (λ d.
        DenoteTheSame c.now.0.elements (IsCovectorOfCocircuits c.now.0) (IsCovectorOfCircuits d.0)) }
    ensures unique { IfOk result (λ d. AreOnlyCircuits d.0) }
    ensures few { OnOk result
        (IsWithinLimit (IsOfLeastSupport (IsVectorOf c.now.0.elements (IsCovectorOfCocircuits c.now.0)))) }
    ensures narrow { OnOk result (HasFewValuesFor c.now.0.elements (IsCovectorOfCocircuits c.now.0)) }
    ensures refused { IfErr result
        (IsListCause c.now.0.elements (IsCovectorOfCocircuits c.now.0)
        (IsOfLeastSupport (IsVectorOf c.now.0.elements (IsCovectorOfCocircuits c.now.0)))) }
{
    let chi = cocircuits_to_chirotope(alloc, c)?;
    let circuits = chirotope_to_circuits(alloc, &chi)?;
    Ok(circuits)
}

/// The circuits of the oriented matroid with these covectors: its nonzero vectors of minimal support. Both have the
/// same elements and denote the same oriented matroid, and up to its order no other list of circuits does. Memory
/// for the list comes from `alloc`.
///
/// [`ConvertError::TooWide`] comes exactly if the chirotope has more than [`MAX_VALUES`](om_signs::MAX_VALUES)
/// values, and gives their number. Otherwise [`ConvertError::TooMany`] comes if there are more circuits than
/// [`MAX_MEMBERS`](om_signs::MAX_MEMBERS), and memory lasts until the first one too many. It gives this limit.
/// [`ConvertError::Memory`] comes only if memory runs out.
///
/// Source: Björner, Las Vergnas, Sturmfels, White and Ziegler, *Oriented Matroids*, chapters 3 and 4.
pub fn covectors_to_circuits(alloc: Global, c: &Covectors) -> Result<Circuits, ConvertError>
    ensures elements { IfOk result (λ d. d.0.elements ≡ c.now.elements) }
    ensures members { IfOk result
        (λ d. AreAllOf (IsOfLeastSupport (IsVectorOf c.now.elements (Contains c.now.members))) d.0.members) }
    ensures same { IfOk result (λ d.
        DenoteTheSame c.now.elements (Contains c.now.members) (IsCovectorOfCircuits d.0)) }
    ensures unique { IfOk result (λ d. AreOnlyCircuits d.0) }
    ensures few { OnOk result (IsWithinLimit (IsOfLeastSupport (IsVectorOf c.now.elements (Contains c.now.members)))) }
    ensures narrow { OnOk result (HasFewValuesFor c.now.elements (Contains c.now.members)) }
    ensures refused { IfErr result
        (IsListCause c.now.elements (Contains c.now.members)
        (IsOfLeastSupport (IsVectorOf c.now.elements (Contains c.now.members)))) }
{
    let chi = covectors_to_chirotope(alloc, c)?;
    let circuits = chirotope_to_circuits(alloc, &chi)?;
    Ok(circuits)
}
