use thiserror::Error;

/// The object had a fault, and has counted it. The call moved no byte.
#[derive(Clone, Copy, Debug, PartialEq, Eq, Error)]
#[error("the object had a fault")]
pub struct Failed;
