use super::stage::Stage;
use om_document::{Document, Setting};

/// A document whose line `end` has not been read yet.
#[derive(Drop)]
pub struct Draft {
    /// The document that the lines so far give. The values of a map are in the order of the lines.
    pub document: Document,
    /// How the body lines are read.
    pub setting: Setting,
    /// Which setting lines may still come.
    pub stage: Stage,
}
