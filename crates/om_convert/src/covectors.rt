//! Conversions of covectors.

ghost use Rattle.std.specs.Prelude.{◌≡◌, IfOk, IsOkUnless};
ghost use Rattle.std.specs.List.{Contains};
ghost use Rattle.om_covectors.specs.CovectorSets.{IsCovectorSet};
ghost use Rattle.om_covectors.specs.Minimality.{IsMinimal, AreThose};
ghost use Rattle.om_denotation.specs.Covectors.{IsCovectorOfCocircuits};
ghost use Rattle.om_denotation.specs.Denotation.{DenoteTheSame};
ghost use Rattle.om_denotation.specs.Only.{AreOnlyCocircuits};

use super::convert_error::ConvertError;
use om_circuits::{Cocircuits, SignedSet};
use om_covectors::Covectors;
use std::alloc::Global;

/// The cocircuits of the oriented matroid with these covectors: its nonzero covectors of minimal support, in the
/// order in which the covectors were listed. Both have the same elements and denote the same oriented matroid, and
/// up to its order no other list of cocircuits does. The list has the allocator of the covectors' own list. The
/// other allocator is passed as to the other conversions, and isn't used.
///
/// [`ConvertError::Memory`] comes only if memory runs out, and the other errors never: there are no more cocircuits
/// than covectors.
///
/// Source: Björner, Las Vergnas, Sturmfels, White and Ziegler, *Oriented Matroids*, chapters 3 and 4.
pub fn covectors_to_cocircuits(_alloc: Global, c: &Covectors) -> Result<Cocircuits, ConvertError>
    ensures elements { IfOk result (λ d. d.0.elements ≡ c.now.elements) }
    ensures members { IfOk result (λ d. AreThose (IsMinimal c.now.members) c.now.members d.0.members) }
    ensures same { IfOk result (λ d.
        DenoteTheSame c.now.elements (Contains c.now.members) (IsCovectorOfCocircuits d.0)) }
    ensures unique { IfOk result (λ d. AreOnlyCocircuits d.0) }
    ensures memory { IsOkUnless result ConvertError.Memory }
    ensures lawful { IsCovectorSet c.now.elements c.now.members }
{
    let elements = c.elements();
    let minimal = c.minimal()?;
    Ok(Cocircuits(SignedSet::lawful(elements, minimal)))
}
