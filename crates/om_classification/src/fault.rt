use om_document::Code;

/// Why a document is no chirotope of rank 3. If several hold, it is the first in this list.
#[derive(Clone, Copy, Debug)]
pub enum Fault {
    /// It has more bytes than the limit on inputs.
    Long,
    /// This line, counted from 1, is the first at fault.
    Line { line: u32, code: Code },
    /// It is a document of another kind.
    Kind,
    /// Its map fails the axioms of a chirotope.
    Axioms,
    /// Its rank isn't 3.
    Rank,
}
