use om_certificate::{Entry, LpEnd, Verdict, Weight};
use om_signs::List;
use om_vectors::Word;

/// What comes before the end of a search in a block.
#[derive(Drop)]
pub enum Front {
    /// The weights of an undecided verdict.
    Weights(List<Weight>),
    /// The end of the tableau, of a limit.
    Tableau(LpEnd),
}

/// The state of the reader after the lines of a verdict block read so far.
#[derive(Drop)]
pub enum Block {
    /// No line yet: the verdict word comes next.
    Empty,
    /// The vectors of a realization so far.
    Vectors(Word),
    /// The entries of a certificate so far.
    Entries(List<Entry>),
    /// The weights before the end of the search so far.
    Weights(List<Weight>),
    /// The line `limit`, and nothing after it.
    Tableau,
    /// The budget of pivots, and no basis yet.
    Pivots(u32),
    /// The end of the tableau, and no end of the search yet.
    Tested(LpEnd),
    /// The search ended as exhausted: only `end` is to come.
    Exhausted(Front),
    /// The search ended at a frontier, at a word of which these vectors were read.
    Frontier(Front, Word),
    /// The whole block.
    Closed(Verdict),
}
