//! The chirotopes of lists, if they have at most [`MAX_VALUES`] values.

ghost use Rattle.std.specs.Prelude.{◌≡◌, ◌≤◌, IfOk, IfErr, OnOk};
ghost use Rattle.std.specs.List.{Contains};
ghost use Rattle.om_signs.specs.declared.sign.Sign.TheVariants.{Plus};
ghost use Rattle.om_chirotope.specs.Map.{IsLedBy};
ghost use Rattle.om_chirotope.specs.Chirotope.{IsChirotope};
ghost use Rattle.om_denotation.specs.Circuits.{IsCircuitOfChirotope, IsCocircuitOfChirotope};
ghost use Rattle.om_denotation.specs.Covectors.{IsCovectorOfChirotope, IsCovectorOfCircuits, IsCovectorOfCocircuits};
ghost use Rattle.om_denotation.specs.Denotation.{DenoteTheSame};
ghost use Rattle.om_denotation.specs.Listings.{AreAllOf};
ghost use Rattle.om_denotation.specs.Only.{IsOnlyChirotope};
ghost use Rattle.om_subsets.specs.Subsets.{choose};
ghost use Rattle.om_convert.specs.Limits.{HasFewValuesFor, IsWidth, IsWidthCause};

use super::convert_error::ConvertError;
use super::covectors::covectors_to_cocircuits;
use super::propagation::{chirotope_of_circuits, chirotope_of_cocircuits};
use super::ranks::{rank_circuits, rank_cocircuits, rank_covectors};
use om_chirotope::Chirotope;
use om_circuits::{Circuits, Cocircuits};
use om_covectors::Covectors;
use om_signs::{MAX_ELEMENTS, MAX_VALUES};
use om_subsets::Subset;
use std::alloc::Global;

/// The normal chirotope with these circuits. Both have the same elements and denote the same oriented matroid, and
/// no other chirotope does, except its negative. Memory for the signs comes from `alloc`.
///
/// [`ConvertError::TooWide`] comes exactly if the chirotope has more than [`MAX_VALUES`] values, and gives their
/// number. [`ConvertError::Memory`] comes only if memory runs out, and [`ConvertError::TooMany`] never.
///
/// Source: Björner, Las Vergnas, Sturmfels, White and Ziegler, *Oriented Matroids*, chapter 3.
pub fn circuits_to_chirotope(alloc: Global, c: &Circuits) -> Result<Chirotope, ConvertError>
    ensures elements { IfOk result (λ m. m.elements ≡ c.now.0.elements) }
    ensures circuits { IfOk result (λ m. AreAllOf (IsCircuitOfChirotope m) c.now.0.members) }
    ensures same { IfOk result (λ m.
        DenoteTheSame c.now.0.elements (IsCovectorOfCircuits c.now.0) (IsCovectorOfChirotope m)) }
    ensures lawful { IfOk result IsChirotope }
    ensures normal { IfOk result (λ m. IsLedBy Plus m.signs) }
    ensures unique { IfOk result IsOnlyChirotope }
    ensures narrow { OnOk result (HasFewValuesFor c.now.0.elements (IsCovectorOfCircuits c.now.0)) }
    ensures refused { IfErr result (IsWidthCause c.now.0.elements (IsCovectorOfCircuits c.now.0)) }
{
    let rank = rank_circuits(c);
    test_width(c.0.elements(), rank)?;
    Ok(chirotope_of_circuits(alloc, c, rank)?)
}

/// The normal chirotope with these cocircuits. Both have the same elements and denote the same oriented matroid,
/// and no other chirotope does, except its negative. Memory for the signs comes from `alloc`.
///
/// [`ConvertError::TooWide`] comes exactly if the chirotope has more than [`MAX_VALUES`] values, and gives their
/// number. [`ConvertError::Memory`] comes only if memory runs out, and [`ConvertError::TooMany`] never.
///
/// Source: Björner, Las Vergnas, Sturmfels, White and Ziegler, *Oriented Matroids*, chapter 3.
pub fn cocircuits_to_chirotope(alloc: Global, c: &Cocircuits) -> Result<Chirotope, ConvertError>
    ensures elements { IfOk result (λ m. m.elements ≡ c.now.0.elements) }
    ensures cocircuits { IfOk result (λ m. AreAllOf (IsCocircuitOfChirotope m) c.now.0.members) }
    ensures same { IfOk result (λ m.
        DenoteTheSame c.now.0.elements (IsCovectorOfCocircuits c.now.0) (IsCovectorOfChirotope m)) }
    ensures lawful { IfOk result IsChirotope }
    ensures normal { IfOk result (λ m. IsLedBy Plus m.signs) }
    ensures unique { IfOk result IsOnlyChirotope }
    ensures narrow { OnOk result (HasFewValuesFor c.now.0.elements (IsCovectorOfCocircuits c.now.0)) }
    ensures refused { IfErr result (IsWidthCause c.now.0.elements (IsCovectorOfCocircuits c.now.0)) }
{
    let rank = rank_cocircuits(c);
    test_width(c.0.elements(), rank)?;
    Ok(chirotope_of_cocircuits(alloc, c, rank)?)
}

/// The normal chirotope with these covectors. Both have the same elements and denote the same oriented matroid, and
/// no other chirotope does, except its negative. Memory for the signs comes from `alloc`.
///
/// [`ConvertError::TooWide`] comes exactly if the chirotope has more than [`MAX_VALUES`] values, and gives their
/// number. [`ConvertError::Memory`] comes only if memory runs out, and [`ConvertError::TooMany`] never.
///
/// Source: Björner, Las Vergnas, Sturmfels, White and Ziegler, *Oriented Matroids*, chapters 3 and 4.
pub fn covectors_to_chirotope(alloc: Global, c: &Covectors) -> Result<Chirotope, ConvertError>
    ensures elements { IfOk result (λ m. m.elements ≡ c.now.elements) }
    ensures covectors { IfOk result (λ m. AreAllOf (IsCovectorOfChirotope m) c.now.members) }
    ensures same { IfOk result (λ m.
        DenoteTheSame c.now.elements (Contains c.now.members) (IsCovectorOfChirotope m)) }
    ensures lawful { IfOk result IsChirotope }
    ensures normal { IfOk result (λ m. IsLedBy Plus m.signs) }
    ensures unique { IfOk result IsOnlyChirotope }
    ensures narrow { OnOk result (HasFewValuesFor c.now.elements (Contains c.now.members)) }
    ensures refused { IfErr result (IsWidthCause c.now.elements (Contains c.now.members)) }
{
    let rank = rank_covectors(c);
    test_width(c.elements(), rank)?;
    let cocircuits = covectors_to_cocircuits(alloc, c)?;
    let chi = chirotope_of_cocircuits(alloc, &cocircuits, rank)?;
    Ok(chi)
}

/// Refuses a rank if a chirotope of this rank on `elements` elements would have more than [`MAX_VALUES`] values.
fn test_width(elements: u8, rank: u8) -> Result<(), ConvertError>
    requires { elements ≤ MAX_ELEMENTS }
    ensures narrow { OnOk result (choose elements rank ≤ MAX_VALUES) }
    ensures wide { IfErr result (IsWidth (choose elements rank)) }
{
    let values = Subset::choose(elements, rank);
    if values > MAX_VALUES {
        return Err(ConvertError::TooWide { values });
    }
    Ok(())
}
