//! The circuits and the cocircuits of a chirotope, from its increasing lists, and its covectors, as compositions of
//! cocircuits.

ghost use Rattle.std.specs.Prelude.{◌≤◌, IfOk, IfErr};
ghost use Rattle.om_chirotope.specs.Chirotope.{IsChirotope};
ghost use Rattle.om_denotation.specs.Circuits.{IsCircuitOfChirotope, IsCocircuitOfChirotope};
ghost use Rattle.om_denotation.specs.Covectors.{IsCovectorOfChirotope};
ghost use Rattle.om_denotation.specs.Listings.{AreAllOf};
ghost use Rattle.om_convert.specs.Limits.{IsCause};

use super::closure::all_compositions;
use super::convert_error::ConvertError;
use super::member_set::MemberSet;
use om_chirotope::Chirotope;
use om_signs::MAX_ELEMENTS;
use om_subsets::Subset;
use std::alloc::Global;

/// The circuits. If the rank is the number of elements there are none.
pub fn all_circuits(alloc: Global, chi: &Chirotope) -> Result<MemberSet, ConvertError>
    ensures members { IfOk result (AreAllOf (IsCircuitOfChirotope chi.now)) }
    ensures many { IfErr result (IsCause (IsCircuitOfChirotope chi.now)) }
    ensures lawful { IsChirotope chi.now }
{
    let mut circuits = MemberSet::new(alloc);
    for s in Subset::all(chi.rank() + 1, chi.elements()) {
        let v = chi.circuit_of(s);
        circuits.insert_signed(v)?;
    }
    Ok(circuits)
}

/// The cocircuits. In rank 0 there are none.
pub fn all_cocircuits(alloc: Global, chi: &Chirotope) -> Result<MemberSet, ConvertError>
    ensures members { IfOk result (AreAllOf (IsCocircuitOfChirotope chi.now)) }
    ensures many { IfErr result (IsCause (IsCocircuitOfChirotope chi.now)) }
    ensures high { chi.now.elements ≤ MAX_ELEMENTS }
    ensures lawful { IsChirotope chi.now }
{
    let mut cocircuits = MemberSet::new(alloc);
    let rank = chi.rank();
    if rank == 0 {
        return Ok(cocircuits);
    }
    for a in Subset::all(rank - 1, chi.elements()) {
        let u = chi.cocircuit_of(a);
        cocircuits.insert_signed(u)?;
    }
    Ok(cocircuits)
}

/// The covectors.
pub fn all_covectors(alloc: Global, chi: &Chirotope) -> Result<MemberSet, ConvertError>
    ensures members { IfOk result (AreAllOf (IsCovectorOfChirotope chi.now)) }
    ensures many { IfErr result (IsCause (IsCovectorOfChirotope chi.now)) }
    ensures high { chi.now.elements ≤ MAX_ELEMENTS }
    ensures lawful { IsChirotope chi.now }
{
    let cocircuits = all_cocircuits(alloc, chi)?;
    let covectors = all_compositions(alloc, chi.elements(), cocircuits.as_slice())?;
    Ok(covectors)
}
