//! The first part of the three-term test that fails.

use om_subsets::Subset;
use thiserror::Error;

/// Why a map fails the three-term test: the first part that fails, in the order of the variants.
#[derive(Clone, Copy, Debug, PartialEq, Eq, Error)]
pub enum ThreeRefused {
    /// All values are 0.
    #[error("all values are 0")]
    AllZero,
    /// The first bases b and c and element e of b, not in c, such that exchanging e for any f in c and not in b
    /// gives no basis. They are ordered by b and then by c in lexicographic order, and then by e.
    #[error("an element of a basis can't be exchanged for one of another basis")]
    NoExchange { b: Subset, c: Subset, e: u8 },
    /// The first set p of two elements less than the rank, and then the first set q of four elements off p, whose
    /// three-term relation fails. Both are first in lexicographic order. Bases have exchange in this case.
    #[error("a three-term relation of the map fails")]
    ThreeTerm { p: Subset, q: Subset },
}
