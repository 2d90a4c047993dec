use om_signs::NoMemory;
use std::alloc::AllocError;
use thiserror::Error;

/// Why there is no sample.
#[derive(Clone, Copy, Debug, PartialEq, Eq, Error)]
pub enum SampleError {
    /// The texts don't give the wanted value: a number is out of its range, a text has another length, or the signs
    /// break an axiom.
    #[error("refused")]
    Refused,
    /// Memory ran out.
    #[error("out of memory")]
    Memory,
}

impl From<NoMemory> for SampleError {
    fn from(_: NoMemory) -> Self {
        SampleError::Memory
    }
}

impl From<AllocError> for SampleError {
    fn from(_: AllocError) -> Self {
        SampleError::Memory
    }
}
