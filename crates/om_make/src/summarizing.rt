//! The counts of the summary of vectors.

ghost use Rattle.std.specs.Prelude.{◌≡◌, IfOk, OnOk};
ghost use Rattle.om_vectors.specs.Realizations.{signs_map};
ghost use Rattle.om_denotation.specs.Circuits.{IsCocircuitOfChirotope};
ghost use Rattle.om_denotation.specs.Covectors.{IsCovectorOfChirotope};
ghost use Rattle.om_denotation.specs.Maps.{IsNormalFormOf};
ghost use Rattle.om_make.specs.Tallies.{BeginsWithUnits, ComesBack, HasExactly, HasMutations, IsTally, IsTallyOfMap};

use super::counting::count;
use super::listing::{
    count_cocircuits, count_covectors, count_mutations, list_cocircuits, list_covectors,
};
use super::return_trip::{CameBack, convert_cocircuits_back, convert_covectors_back};
use om_chirotope::Chirotope;
use om_signs::{NoMemory, Sign};
use om_vectors::{Tally, Word, signs_of};
use std::alloc::Global;
use std::thread::Threads;

/// The summary of vectors that begin with the three unit vectors, in their order. It counts the triples with each
/// sign, and the cocircuits, the covectors and the mutations of the chirotope of these signs. Both lists are
/// converted back, which gives the normal form of the chirotope.
///
/// Everything is counted on the calling thread. The argument `_rt` is there so that the call can use threads later
/// without a change of its signature.
///
/// [`NoMemory`] comes only if memory runs out: a chirotope of rank 3 has no more cocircuits or covectors than a
/// list may have.
///
/// Source of the notions: Björner, Las Vergnas, Sturmfels, White and Ziegler, *Oriented Matroids*, chapters 1, 3, 6 and
/// 8.
pub fn summary<R: Threads + Sync>(_rt: &R, alloc: Global, vectors: &Word) -> Result<Tally, NoMemory>
    requires { BeginsWithUnits vectors.now }
    ensures tally { IfOk result (IsTally vectors.now) }
    ensures back { OnOk result (ComesBack (signs_map vectors.now)) }
{
    let chi = chirotope_of(alloc, vectors)?;
    summarize(alloc, chi)
}

/// The chirotope of vectors that begin with the unit vectors. The triple product of these is 1.
fn chirotope_of(alloc: Global, vectors: &Word) -> Result<Chirotope, NoMemory>
    requires { BeginsWithUnits vectors.now }
    ensures { IfOk result (λ c. c ≡ signs_map vectors.now) }
{
    match signs_of(alloc, vectors.as_slice()) {
        Ok(chi) => Ok(chi),
        // the triple product of the unit vectors is 1
        Err(error) => Err(error.memory_alone()),
    }
}

/// The summary of a chirotope of rank 3.
fn summarize(alloc: Global, chi: Chirotope) -> Result<Tally, NoMemory>
    requires { chi.rank ≡ 3 }
    ensures tally { IfOk result (IsTallyOfMap chi) }
    ensures back { OnOk result (ComesBack chi) }
{
    let sizes = sizes_of(alloc, &chi)?;
    let signs = chi.into_raw().signs;
    Ok(Tally {
        plus: count(signs.as_slice(), Sign::Plus),
        zero: count(signs.as_slice(), Sign::Zero),
        minus: count(signs.as_slice(), Sign::Minus),
        cocircuits: sizes.cocircuits.members,
        covectors: sizes.covectors.members,
        mutations: sizes.mutations,
    })
}

/// A list's number of members, and the chirotope to which the list is converted back.
#[derive(Drop)]
struct RoundTrip {
    members: u32,
    back: CameBack,
}

/// The lists of the cocircuits and of the covectors of a chirotope, there and back, and the number of its mutations.
#[derive(Drop)]
struct Sizes {
    cocircuits: RoundTrip,
    covectors: RoundTrip,
    mutations: u32,
}

/// The numbers of cocircuits, covectors and mutations of a chirotope of rank 3. Both lists are converted back.
fn sizes_of(alloc: Global, chi: &Chirotope) -> Result<Sizes, NoMemory>
    requires { chi.now.rank ≡ 3 }
    ensures cocircuits { IfOk result (λ s. HasExactly s.cocircuits.members (IsCocircuitOfChirotope chi.now)) }
    ensures covectors { IfOk result (λ s. HasExactly s.covectors.members (IsCovectorOfChirotope chi.now)) }
    ensures mutations { IfOk result (λ s. HasMutations s.mutations chi.now) }
    ensures from_cocircuits { IfOk result (λ s. IsNormalFormOf chi.now s.cocircuits.back) }
    ensures from_covectors { IfOk result (λ s. IsNormalFormOf chi.now s.covectors.back) }
{
    Ok(Sizes {
        cocircuits: trip_by_cocircuits(alloc, chi)?,
        covectors: trip_by_covectors(alloc, chi)?,
        mutations: count_mutations(alloc, chi)?,
    })
}

/// The list of the cocircuits of a chirotope of rank 3, there and back.
fn trip_by_cocircuits(alloc: Global, chi: &Chirotope) -> Result<RoundTrip, NoMemory>
    requires { chi.now.rank ≡ 3 }
    ensures number { IfOk result (λ t. HasExactly t.members (IsCocircuitOfChirotope chi.now)) }
    ensures back { IfOk result (λ t. IsNormalFormOf chi.now t.back) }
{
    let cocircuits = list_cocircuits(alloc, chi)?;
    let back = convert_cocircuits_back(alloc, &cocircuits)?;
    let members = count_cocircuits(&cocircuits);
    Ok(RoundTrip { members, back })
}

/// The list of the covectors of a chirotope of rank 3, there and back.
fn trip_by_covectors(alloc: Global, chi: &Chirotope) -> Result<RoundTrip, NoMemory>
    requires { chi.now.rank ≡ 3 }
    ensures number { IfOk result (λ t. HasExactly t.members (IsCovectorOfChirotope chi.now)) }
    ensures back { IfOk result (λ t. IsNormalFormOf chi.now t.back) }
{
    let covectors = list_covectors(alloc, chi)?;
    let back = convert_covectors_back(alloc, &covectors)?;
    let members = count_covectors(&covectors);
    Ok(RoundTrip { members, back })
}
