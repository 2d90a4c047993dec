use super::word::Word;
use thiserror::Error;

/// Why a search for vectors found none. The search gives unit vectors to the elements of the first basis and the
/// zero vector to loops, and tries vectors in a box for the other elements.
#[derive(Clone, Copy, Debug, PartialEq, Eq, Error)]
pub enum Unfound {
    /// No vectors in the box for the other elements fit these. The chirotope may still be realized by other vectors
    /// in the same box, if those of the first basis differ.
    #[error("no vectors in the box beside the unit vectors of the first basis")]
    Exhausted,
    /// The steps ran out at this list of vectors, which are those of the first of the other elements.
    #[error("no steps left")]
    Frontier(Word),
}
