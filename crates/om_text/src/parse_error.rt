use om_document::Code;
use thiserror::Error;

/// Why bytes can't be read as a document.
#[derive(Clone, Copy, Debug, PartialEq, Eq, Error)]
pub enum ParseError {
    /// The bytes are no document. `line`, counted from 1, is the first line at which no document can continue. The
    /// end of the input counts as the line after the last one.
    #[error("line {line}: {code}")]
    Line { line: u32, code: Code },
    /// Memory ran out.
    #[error("out of memory")]
    Memory,
}
