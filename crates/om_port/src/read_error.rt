use thiserror::Error;

/// Why a source wasn't read whole.
#[derive(Clone, Copy, Debug, PartialEq, Eq, Error)]
pub enum ReadError {
    /// The source had a fault in this call.
    #[error("the source had a fault")]
    ReadFault,
    /// There are more bytes than the limit, and exactly one byte more than the limit was taken.
    #[error("there are more bytes than the limit")]
    TooLong,
    /// Memory ran out.
    #[error("out of memory")]
    Memory,
}
