//! From the bytes of an input to the answer.

ghost use Rattle.std.specs.Prelude.{◌≡◌, ◌≤◌, IfOk, length};
ghost use Rattle.om_document.specs.Form.{IsInForm};
ghost use Rattle.om_program.specs.Meaning.{TaskMeans, ReadingMeans, DocumentMeans, IsAnswerOf};
ghost use Rattle.om_program.specs.Plans.{IsLawfulReading, IsLawfulOnDocument, IsLawfulOnMatroid};
ghost use Rattle.om_representation.specs.Documents.{document_of};
ghost use Rattle.om_representation.specs.Represented.{IsMeantFor};
ghost use Rattle.om_representation.specs.Widths.{HasFewValues};
ghost use Rattle.om_words.specs.Tasks.{HasLawfulArguments, reads};

use super::plan::{OnDocument, OnMatroid, Plan, Reading, plan_of};
use om_answer::read_claim;
use om_commands::{
    convert, extend_lexically, find_hull, find_membership, find_painting, operate,
    test_three_terms, upgrade,
};
use om_document::Document;
use om_plane::{
    find_wiring, flip_triple, judge, list_extensions, list_mutations, make_input, verify,
};
use om_printing::Line;
use om_reply::Answer;
use om_representation::{Representation, Unrepresented, refused_line, represent};
use om_signs::{MAX_INPUT, NoMemory};
use om_text::{ParseError, parse};
use om_words::{Reads, Task};
use std::alloc::Global;
use std::thread::Threads;

/// The answer to a task on an input within the limit.
pub fn answer_input<R: Threads + Sync>(
    rt: &R,
    alloc: Global,
    task: Task,
    bytes: &[u8],
) -> Result<Answer, NoMemory>
    requires short { length bytes.now ≤ MAX_INPUT }
    requires lawful { HasLawfulArguments task }
    requires reading { reads task ≡ Reads.Nothing → ⊥ }
    ensures { IfOk result (TaskMeans task bytes.now) }
{
    match plan_of(task) {
        Plan::Make { seed, count } => make_input(rt, alloc, seed, count),
        Plan::Read(what) => answer_reading(rt, alloc, what, bytes),
    }
}

/// The answer to what is asked of an input within the limit.
pub fn answer_reading<R: Threads + Sync>(
    rt: &R,
    alloc: Global,
    what: Reading,
    bytes: &[u8],
) -> Result<Answer, NoMemory>
    requires short { length bytes.now ≤ MAX_INPUT }
    requires lawful { IsLawfulReading what }
    ensures { IfOk result (ReadingMeans what bytes.now) }
{
    match what {
        Reading::Claim => answer_claim(rt, alloc, bytes),
        Reading::Document(what) => answer_text(rt, alloc, what, bytes),
    }
}

/// The answer to a claim.
fn answer_claim<R: Threads + Sync>(rt: &R, alloc: Global, bytes: &[u8]) -> Result<Answer, NoMemory>
    requires { length bytes.now ≤ MAX_INPUT }
    ensures { IfOk result (ReadingMeans Reading.Claim bytes.now) }
{
    match read_claim(alloc, bytes) {
        Ok(claim) => Ok(Answer::Line(verify(rt, alloc, claim)?)),
        Err(ParseError::Line { line, code }) => Ok(Answer::Line(Line::RefusedLine { line, code })),
        Err(ParseError::Memory) => Err(NoMemory),
    }
}

/// The answer to what is asked of a document that is given by its bytes.
fn answer_text<R: Threads + Sync>(
    rt: &R,
    alloc: Global,
    what: OnDocument,
    bytes: &[u8],
) -> Result<Answer, NoMemory>
    requires short { length bytes.now ≤ MAX_INPUT }
    requires lawful { IsLawfulOnDocument what }
    ensures { IfOk result (ReadingMeans (Reading.Document what) bytes.now) }
{
    match parse(alloc, bytes) {
        Ok(document) => answer_document(rt, alloc, what, document),
        Err(ParseError::Line { line, code }) => Ok(Answer::Line(Line::RefusedLine { line, code })),
        Err(ParseError::Memory) => Err(NoMemory),
    }
}

/// The answer to what is asked of a document.
fn answer_document<R: Threads + Sync>(
    rt: &R,
    alloc: Global,
    what: OnDocument,
    document: Document,
) -> Result<Answer, NoMemory>
    requires form { IsInForm document }
    requires lawful { IsLawfulOnDocument what }
    ensures { IfOk result (DocumentMeans what document) }
{
    match what {
        OnDocument::Accept => accept(rt, alloc, document),
        OnDocument::ThreeTerm => test_three_terms(rt, alloc, document),
        OnDocument::Upgrade => upgrade(rt, alloc, document),
        OnDocument::Matroid(what) => answer_represented(rt, alloc, what, document),
    }
}

/// Whether a document meets the axioms of its kind.
fn accept<R: Threads + Sync>(rt: &R, alloc: Global, document: Document) -> Result<Answer, NoMemory>
    requires { IsInForm document }
    ensures { IfOk result (DocumentMeans OnDocument.Accept document) }
{
    match represent(rt, alloc, document) {
        Ok(_representation) => Ok(Answer::Line(Line::Accepted)),
        Err(Unrepresented::Refused(why)) => Ok(Answer::Line(refused_line(why))),
        // a wiring without a chirotope meets them
        Err(Unrepresented::Flat) => Ok(Answer::Line(Line::Accepted)),
        Err(Unrepresented::Memory) => Err(NoMemory),
    }
}

/// The answer to what is asked of the oriented matroid that a document gives. A wiring without a chirotope gives none.
fn answer_represented<R: Threads + Sync>(
    rt: &R,
    alloc: Global,
    what: OnMatroid,
    document: Document,
) -> Result<Answer, NoMemory>
    requires form { IsInForm document }
    requires lawful { IsLawfulOnMatroid what }
    ensures { IfOk result (DocumentMeans (OnDocument.Matroid what) document) }
{
    match represent(rt, alloc, document) {
        Ok(representation) => answer_matroid(rt, alloc, what, representation),
        Err(Unrepresented::Refused(why)) => Ok(Answer::Line(refused_line(why))),
        Err(Unrepresented::Flat) => Ok(Answer::Line(Line::RefusedFlatrank)),
        Err(Unrepresented::Memory) => Err(NoMemory),
    }
}

/// The answer to what is asked of an oriented matroid.
fn answer_matroid<R: Threads + Sync>(
    rt: &R,
    alloc: Global,
    what: OnMatroid,
    representation: Representation,
) -> Result<Answer, NoMemory>
    requires lawful { IsLawfulOnMatroid what }
    requires few { HasFewValues (document_of representation) }
    ensures { IfOk result (IsMeantFor (IsAnswerOf what) representation) }
{
    match what {
        OnMatroid::Member(x) => Ok(find_membership(&representation, x)),
        OnMatroid::Convert(kind) => convert(alloc, representation, kind),
        OnMatroid::Operate(operation) => operate(alloc, representation, operation),
        OnMatroid::Wiring => find_wiring(alloc, representation),
        OnMatroid::Mutations => list_mutations(alloc, representation),
        OnMatroid::Flip(a, b, c) => flip_triple(alloc, representation, a, b, c),
        OnMatroid::Extend { first } => list_extensions(rt, alloc, representation, first),
        OnMatroid::Paint(colouring) => find_painting(alloc, representation, colouring),
        OnMatroid::Hull => find_hull(alloc, representation),
        OnMatroid::Lexext(leading) => extend_lexically(alloc, representation, leading),
        OnMatroid::Decide(budgets) => judge(alloc, representation, budgets),
    }
}
