//! The cocircuits, the covectors and the mutations of a chirotope of rank 3.

ghost use Rattle.std.specs.Prelude.{◌≡◌, ◌≤◌, IfOk, length};
ghost use Rattle.om_denotation.specs.Circuits.{IsCocircuitOfChirotope};
ghost use Rattle.om_denotation.specs.Covectors.{IsCovectorOfChirotope, IsCovectorOfCocircuits, IsCovectorOfCovectors};
ghost use Rattle.om_make.specs.Tallies.{HasExactly, HasMutations};
ghost use Rattle.om_make.specs.Lists.{ListsCocircuits, ListsCovectors};

use om_chirotope::Chirotope;
use om_circuits::Cocircuits;
use om_convert::{chirotope_to_cocircuits, chirotope_to_covectors};
use om_covectors::Covectors;
use om_mutate::mutations;
use om_signs::{MAX_ELEMENTS, NoMemory};
use std::alloc::Global;

/// The cocircuits of a chirotope of rank 3.
pub fn list_cocircuits(alloc: Global, chi: &Chirotope) -> Result<Cocircuits, NoMemory>
    requires { chi.now.rank ≡ 3 }
    ensures list { IfOk result (λ c. ListsCocircuits chi.now c.0) }
    ensures high { chi.now.elements ≤ MAX_ELEMENTS }
{
    match chirotope_to_cocircuits(alloc, chi) {
        Ok(cocircuits) => Ok(cocircuits),
        // in rank 3 there are at most n (n - 1) on n elements, which is 380 on 20
        Err(error) => Err(error.memory_alone()),
    }
}

/// The covectors of a chirotope of rank 3.
pub fn list_covectors(alloc: Global, chi: &Chirotope) -> Result<Covectors, NoMemory>
    requires { chi.now.rank ≡ 3 }
    ensures list { IfOk result (λ c. ListsCovectors chi.now c) }
    ensures high { chi.now.elements ≤ MAX_ELEMENTS }
{
    match chirotope_to_covectors(alloc, chi) {
        Ok(covectors) => Ok(covectors),
        // in rank 3 there are at most 4 n (n - 1) + 3 on n elements, which is 1,523 on 20
        Err(error) => Err(error.memory_alone()),
    }
}

/// The number of cocircuits in a list.
pub fn count_cocircuits(cocircuits: &Cocircuits) -> u32
    ensures { result ≡ length cocircuits.now.0.members }
{
    cocircuits.0.members().len() as u32
}

/// The number of covectors in a list.
pub fn count_covectors(covectors: &Covectors) -> u32
    ensures { result ≡ length covectors.now.members }
{
    covectors.members().len() as u32
}

/// The number of mutations of a chirotope of rank 3.
pub fn count_mutations(alloc: Global, chi: &Chirotope) -> Result<u32, NoMemory>
    requires { chi.now.rank ≡ 3 }
    ensures { IfOk result (λ k. HasMutations k chi.now) }
{
    match mutations(alloc, chi) {
        Ok(sets) => Ok(sets.len() as u32),
        // the rank is 3
        Err(error) => Err(error.memory_alone()),
    }
}
