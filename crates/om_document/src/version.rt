/// The version of the format that a document is in.
#[derive(Clone, Copy)]
pub enum Version {
    /// `om 1`.
    One,
    /// `om 2`, which may have setting lines.
    Two,
}
