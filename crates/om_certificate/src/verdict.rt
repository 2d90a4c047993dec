ghost use Rattle.std.specs.Prelude.{◌≡◌};
ghost use Rattle.om_certificate.specs.Verdicts.{certificate_of};

use super::entry::Entry;
use super::evidence::Evidence;
use super::lp_end::LpEnd;
use super::weight::Weight;
use om_signs::List;
use om_vectors::{Unfound, Word};

/// An answer to the question whether vectors realize a chirotope of rank 3.
#[derive(Drop)]
pub enum Verdict {
    /// Yes: these vectors realize it.
    Realizable(Word),
    /// No vectors do, as this certificate shows.
    Nonrealizable(List<Entry>),
    /// No certificate exists, as these weights show, and the search found no vectors.
    Undecided(List<Weight>, Unfound),
    /// The linear program ended at a limit, and the search found no vectors.
    Limit(LpEnd, Unfound),
}

/// The vectors, the certificate or the weights of a verdict. The verdict is given back exactly if it is
/// [`Verdict::Limit`]. The call allocates no memory.
pub fn certificate(verdict: Verdict) -> Result<Evidence, Verdict>
    ensures { result ≡ certificate_of verdict }
{
    match verdict {
        Verdict::Realizable(word) => Ok(Evidence::Vectors(word)),
        Verdict::Nonrealizable(entries) => Ok(Evidence::Balanced(entries)),
        Verdict::Undecided(weights, _unfound) => Ok(Evidence::Weights(weights)),
        Verdict::Limit(end, unfound) => Err(Verdict::Limit(end, unfound)),
    }
}
