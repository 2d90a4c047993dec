use om_subsets::Subset;
use thiserror::Error;

/// Why a map is no chirotope.
#[derive(Clone, Copy, Debug, PartialEq, Eq, Error)]
pub enum MapRefused {
    /// All values are 0.
    #[error("all values are 0")]
    AllZero,
    /// The first pair, by S and then by A in lexicographic order, whose vectors aren't orthogonal. These are the
    /// vector V of the set S of one element more than the rank, and the vector U of the set A of one element less.
    #[error("two sign vectors of the map are not orthogonal")]
    Relation { s: Subset, a: Subset },
}
