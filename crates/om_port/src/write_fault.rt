use thiserror::Error;

/// The sink had a fault, and has taken only the first `written` bytes.
#[derive(Clone, Copy, Debug, PartialEq, Eq, Error)]
#[error("the sink had a fault after {written} bytes")]
pub struct WriteFault {
    pub written: usize,
}
