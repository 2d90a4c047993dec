/// What a task reads from the source.
#[derive(Clone, Copy)]
pub enum Reads {
    /// A document.
    Document,
    /// A claim: a document followed by a verdict.
    Claim,
    /// Nothing: the source is left as it is.
    Nothing,
}
