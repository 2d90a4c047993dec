//! What the program answers, and the status with which a run ends.

ghost use Rattle.std.specs.Prelude.{◌≡◌};
ghost use Rattle.om_reply.specs.Answers.{status_of, status_of_line, status_of_verdict};

use super::claim::Claim;
use super::status::Status;
use om_certificate::Verdict;
use om_document::Document;
use om_localize::Listing;
use om_oriented::Painted;
use om_printing::Line;
use om_signs::List;
use om_subsets::Subset;
use om_vectors::{Tally, Word};

/// What the program answers. A command decides it, and it is printed once, at the end of the run.
#[derive(Drop)]
pub enum Answer {
    /// One line.
    Line(Line),
    /// A document in canonical form.
    Document(Document),
    /// A document in version 2 of the format, with its names.
    Upgraded(Document),
    /// Mutations: a line with their number, a line for each, and `end`.
    Mutations(List<Subset>),
    /// Extensions of a map on this many elements: `om 1`, `extensions` and the number of elements, a line for each
    /// signature, and `end`, or `more` if a further one exists.
    Extensions { elements: u8, listing: Listing },
    /// The hull of an acyclic oriented matroid: `acyclic`, a line for each element, and `end`.
    Hull(List<Painted>),
    /// A claim: the document of a chirotope, followed by the verdict on it.
    Claim(Claim),
    /// Vectors that a number determines: the document of the points, followed by the counts of their summary.
    Made { vectors: Word, tally: Tally },
}

impl Answer {
    /// The status of a run that has written this whole answer.
    pub fn status(&self) -> Status
        ensures { result ≡ status_of self.now }
    {
        match self {
            Answer::Line(line) => status_of_line(line),
            Answer::Document(_) => Status::Done,
            Answer::Upgraded(_) => Status::Done,
            Answer::Mutations(_) => Status::Done,
            Answer::Extensions { .. } => Status::Done,
            Answer::Hull(_) => Status::Done,
            Answer::Claim(claim) => status_of_verdict(&claim.verdict),
            Answer::Made { .. } => Status::Done,
        }
    }
}

/// The status of a run that has written this verdict.
fn status_of_verdict(verdict: &Verdict) -> Status
    ensures { result ≡ status_of_verdict verdict.now }
{
    match verdict {
        Verdict::Limit(..) => Status::Limit,
        Verdict::Realizable(_) | Verdict::Nonrealizable(_) | Verdict::Undecided(..) => Status::Done,
    }
}

/// The status of a run that has written this line.
fn status_of_line(line: &Line) -> Status
    ensures { result ≡ status_of_line line.now }
{
    match line {
        Line::Accepted => Status::Done,
        Line::Covector => Status::Done,
        Line::NotCovector => Status::Done,
        Line::Circuit { .. } => Status::Done,
        Line::Cocircuit { .. } => Status::Done,
        Line::Cyclic { .. } => Status::Done,
        Line::ValidRealizable => Status::Done,
        Line::ValidNonrealizable => Status::Done,
        Line::ValidUndecided => Status::Done,
        Line::Usage { .. } => Status::Usage,
        Line::LimitMembers { .. } => Status::Limit,
        Line::LimitValues { .. } => Status::Limit,
        Line::RefusedLong => Status::Refused,
        Line::RefusedLine { .. } => Status::Refused,
        Line::RefusedAllzero => Status::Refused,
        Line::RefusedRelation { .. } => Status::Refused,
        Line::RefusedZero { .. } => Status::Refused,
        Line::RefusedNonegative { .. } => Status::Refused,
        Line::RefusedNested { .. } => Status::Refused,
        Line::RefusedNoelimination { .. } => Status::Refused,
        Line::RefusedNozero => Status::Refused,
        Line::RefusedNocomposition { .. } => Status::Refused,
        Line::RefusedRange { .. } => Status::Refused,
        Line::RefusedNotincreasing { .. } => Status::Refused,
        Line::RefusedNotreversed => Status::Refused,
        Line::RefusedRanklow => Status::Refused,
        Line::RefusedFlatrank => Status::Refused,
        Line::RefusedLength { .. } => Status::Refused,
        Line::RefusedPlace { .. } => Status::Refused,
        Line::RefusedLastelement => Status::Refused,
        Line::RefusedNotrank3 { .. } => Status::Refused,
        Line::RefusedFull { .. } => Status::Refused,
        Line::RefusedNotbasis => Status::Refused,
        Line::RefusedNotsweepable { .. } => Status::Refused,
        Line::RefusedNotmutation { .. } => Status::Refused,
        Line::RefusedColour { .. } => Status::Refused,
        Line::RefusedNotmap => Status::Refused,
        Line::RefusedNoexchange { .. } => Status::Refused,
        Line::RefusedThreeterm { .. } => Status::Refused,
        Line::RefusedNocertificate => Status::Refused,
        Line::RefusedNumber { .. } => Status::Refused,
        Line::RefusedWrongsign { .. } => Status::Refused,
        Line::RefusedUnlawful { .. } => Status::Refused,
        Line::RefusedUnbalanced { .. } => Status::Refused,
        Line::RefusedNostrict => Status::Refused,
        Line::RefusedBracket { .. } => Status::Refused,
        Line::RefusedWeightfails { .. } => Status::Refused,
    }
}
