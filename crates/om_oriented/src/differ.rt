use om_signs::SignVec;

/// The two values don't denote the same oriented matroid.
#[derive(Clone, Copy, Debug, PartialEq, Eq, thiserror::Error)]
#[error("a sign vector is a covector of one and not of the other")]
pub struct Differ {
    /// The first sign vector, in lexicographic order, that is a covector of exactly one of them.
    pub x: SignVec,
}
