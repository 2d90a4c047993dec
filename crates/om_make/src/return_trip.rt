//! The conversion of the cocircuits and the covectors of a chirotope back to a chirotope.

ghost use Rattle.std.specs.Prelude.{IfOk};
ghost use Rattle.om_make.specs.Lists.{AreCocircuitsOfRank3, AreCovectorsOfRank3};
ghost use Rattle.om_make.specs.Lists.{IsNormalFormByCocircuits, IsNormalFormByCovectors};

use om_chirotope::Chirotope;
use om_circuits::Cocircuits;
use om_convert::{cocircuits_to_chirotope, covectors_to_chirotope};
use om_covectors::Covectors;
use om_signs::NoMemory;
use std::alloc::Global;
use std::marker::Model;

/// A chirotope to which a list was converted back. Only the calls of this module make one, and they are given a list
/// and no chirotope, so it comes from the list. Contracts see its map.
#[derive(Drop)]
pub struct CameBack {
    chirotope: Chirotope,
}

impl Model for CameBack {
    ghost use Rattle.om_chirotope.specs.Map.{SignMap};

    ghost Value = { SignMap };

    ghost view = { λ c. c.chirotope };
}

/// The chirotope of the cocircuits of a chirotope of rank 3, which is its normal form.
pub fn convert_cocircuits_back(alloc: Global, cocircuits: &Cocircuits) -> Result<CameBack, NoMemory>
    requires { AreCocircuitsOfRank3 cocircuits.now.0 }
    ensures { IfOk result (IsNormalFormByCocircuits cocircuits.now.0) }
{
    match cocircuits_to_chirotope(alloc, cocircuits) {
        Ok(chirotope) => Ok(CameBack { chirotope }),
        // a chirotope of rank 3 on 20 elements has 1,140 values
        Err(error) => Err(error.memory_alone()),
    }
}

/// The chirotope of the covectors of a chirotope of rank 3, which is its normal form.
pub fn convert_covectors_back(alloc: Global, covectors: &Covectors) -> Result<CameBack, NoMemory>
    requires { AreCovectorsOfRank3 covectors.now }
    ensures { IfOk result (IsNormalFormByCovectors covectors.now) }
{
    match covectors_to_chirotope(alloc, covectors) {
        Ok(normal) => Ok(CameBack { chirotope: normal }),
        // a chirotope of rank 3 on 20 elements has 1,140 values
        Err(error) => Err(error.memory_alone()),
    }
}
