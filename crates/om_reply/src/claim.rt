use om_certificate::Verdict;
use om_document::Document;

/// A document with a verdict on its chirotope.
#[derive(Drop)]
pub struct Claim {
    /// The document.
    pub document: Document,
    /// The verdict with its evidence.
    pub verdict: Verdict,
}
