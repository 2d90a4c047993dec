//! Conversions of chirotopes.

ghost use Rattle.std.specs.Prelude.{◌≡◌, ◌≤◌, IfOk, IfErr, OnOk};
ghost use Rattle.om_chirotope.specs.Chirotope.{IsChirotope};
ghost use Rattle.om_denotation.specs.Circuits.{IsCircuitOfChirotope, IsCocircuitOfChirotope};
ghost use Rattle.om_denotation.specs.Covectors.{IsCovectorOfChirotope, IsCovectorOfCircuits, IsCovectorOfCocircuits};
ghost use Rattle.om_denotation.specs.Covectors.{IsCovectorOfCovectors};
ghost use Rattle.om_denotation.specs.Denotation.{DenoteTheSame};
ghost use Rattle.om_denotation.specs.Listings.{AreAllOf};
ghost use Rattle.om_denotation.specs.Only.{AreOnlyCircuits, AreOnlyCocircuits, AreOnlyCovectors};
ghost use Rattle.om_convert.specs.Limits.{IsCause, IsWithinLimit};

use super::convert_error::ConvertError;
use super::vectors::{all_circuits, all_cocircuits, all_covectors};
use om_chirotope::Chirotope;
use om_circuits::{Circuits, Cocircuits, SignedSet};
use om_covectors::Covectors;
use om_signs::MAX_ELEMENTS;
use std::alloc::Global;

/// The circuits of the oriented matroid of a chirotope: the nonzero vectors V of the increasing lists of one
/// element more than the rank, and their negatives. Both have the same elements and denote the same oriented
/// matroid, and up to its order no other list of circuits does. Memory for the list comes from `alloc`.
///
/// [`ConvertError::TooMany`] comes if there are more circuits than [`MAX_MEMBERS`](om_signs::MAX_MEMBERS), and
/// memory lasts until the first one too many. It gives this limit. [`ConvertError::Memory`] comes only if memory
/// runs out.
///
/// Source: Björner, Las Vergnas, Sturmfels, White and Ziegler, *Oriented Matroids*, chapter 3.
pub fn chirotope_to_circuits(alloc: Global, chi: &Chirotope) -> Result<Circuits, ConvertError>
    ensures elements { IfOk result (λ c. c.0.elements ≡ chi.now.elements) }
    ensures members { IfOk result (λ c. AreAllOf (IsCircuitOfChirotope chi.now) c.0.members) }
    ensures same { IfOk result (λ c.
        DenoteTheSame chi.now.elements (IsCovectorOfChirotope chi.now) (IsCovectorOfCircuits c.0)) }
    ensures unique { IfOk result (λ c. AreOnlyCircuits c.0) }
    ensures few { OnOk result (IsWithinLimit (IsCircuitOfChirotope chi.now)) }
    ensures many { IfErr result (IsCause (IsCircuitOfChirotope chi.now)) }
    ensures lawful { IsChirotope chi.now }
{
    let gathered = all_circuits(alloc, chi)?;
    let circuits = gathered.into_list(alloc)?;
    Ok(Circuits(SignedSet::lawful(chi.elements(), circuits)))
}

/// The cocircuits of the oriented matroid of a chirotope: the nonzero vectors U of the increasing lists of one
/// element less than the rank, and their negatives. Both have the same elements and denote the same oriented
/// matroid, and up to its order no other list of cocircuits does. Memory for the list comes from `alloc`.
///
/// [`ConvertError::TooMany`] comes if there are more cocircuits than [`MAX_MEMBERS`](om_signs::MAX_MEMBERS), and
/// memory lasts until the first one too many. It gives this limit. [`ConvertError::Memory`] comes only if memory
/// runs out.
///
/// Source: Björner, Las Vergnas, Sturmfels, White and Ziegler, *Oriented Matroids*, chapter 3.
pub fn chirotope_to_cocircuits(alloc: Global, chi: &Chirotope) -> Result<Cocircuits, ConvertError>
    ensures elements { IfOk result (λ c. c.0.elements ≡ chi.now.elements) }
    ensures members { IfOk result (λ c. AreAllOf (IsCocircuitOfChirotope chi.now) c.0.members) }
    ensures same { IfOk result (λ c.
        DenoteTheSame chi.now.elements (IsCovectorOfChirotope chi.now) (IsCovectorOfCocircuits c.0)) }
    ensures unique { IfOk result (λ c. AreOnlyCocircuits c.0) }
    ensures few { OnOk result (IsWithinLimit (IsCocircuitOfChirotope chi.now)) }
    ensures many { IfErr result (IsCause (IsCocircuitOfChirotope chi.now)) }
    ensures high { chi.now.elements ≤ MAX_ELEMENTS }
    ensures lawful { IsChirotope chi.now }
{
    let gathered = all_cocircuits(alloc, chi)?;
    let cocircuits = gathered.into_list(alloc)?;
    Ok(Cocircuits(SignedSet::lawful(chi.elements(), cocircuits)))
}

/// The covectors of the oriented matroid of a chirotope: the compositions of its cocircuits. Both have the same
/// elements and denote the same oriented matroid, and up to its order no other list of covectors does. Memory for
/// the list comes from `alloc`.
///
/// [`ConvertError::TooMany`] comes if there are more covectors than [`MAX_MEMBERS`](om_signs::MAX_MEMBERS), and
/// memory lasts until the first one too many. It gives this limit. [`ConvertError::Memory`] comes only if memory
/// runs out.
///
/// Source: Björner, Las Vergnas, Sturmfels, White and Ziegler, *Oriented Matroids*, chapters 3 and 4.
pub fn chirotope_to_covectors(alloc: Global, chi: &Chirotope) -> Result<Covectors, ConvertError>
    ensures elements { IfOk result (λ c. c.elements ≡ chi.now.elements) }
    ensures members { IfOk result (λ c. AreAllOf (IsCovectorOfChirotope chi.now) c.members) }
    ensures same { IfOk result (λ c.
        DenoteTheSame chi.now.elements (IsCovectorOfChirotope chi.now) (IsCovectorOfCovectors c)) }
    ensures unique { IfOk result AreOnlyCovectors }
    ensures few { OnOk result (IsWithinLimit (IsCovectorOfChirotope chi.now)) }
    ensures many { IfErr result (IsCause (IsCovectorOfChirotope chi.now)) }
    ensures high { chi.now.elements ≤ MAX_ELEMENTS }
    ensures lawful { IsChirotope chi.now }
{
    let gathered = all_covectors(alloc, chi)?;
    let covectors = gathered.into_list(alloc)?;
    Ok(Covectors::lawful(chi.elements(), covectors))
}
