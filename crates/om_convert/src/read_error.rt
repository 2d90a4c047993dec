//! Why a list isn't accepted.

use om_circuits::BadSet;
use om_covectors::BadCov;
use om_signs::{List, SignVec};

/// Why a list isn't accepted as circuits or as cocircuits.
#[derive(Drop)]
pub enum ReadSetError {
    /// The list fails the axioms of circuits. It is returned, with the first violated instance.
    Bad(BadSet),
    /// Memory ran out, and the list is returned. This never comes, since the scan of the axioms needs no memory.
    Memory(List<SignVec>),
}

/// Why a list isn't accepted as covectors.
#[derive(Drop)]
pub enum ReadCovError {
    /// The list fails the axioms of covectors. It is returned, with the first violated instance.
    Bad(BadCov),
    /// Memory ran out, and the list is returned. This never comes, since the scan of the axioms needs no memory.
    Memory(List<SignVec>),
}
