//! The three-term test as a command.

ghost use Rattle.std.specs.Prelude.{◌≡◌, ◌≤◌, IfOk};
ghost use Rattle.om_document.specs.Form.{IsInForm, IsMapOn};
ghost use Rattle.om_reply.specs.Answers.{says};
ghost use Rattle.om_commands.specs.ThreeTermTests.{IsThreeTermTest, IsTestOfMap, IsNoMap, failure_line};

use om_document::{Body, Document};
use om_printing::Line;
use om_reply::Answer;
use om_representation::{Unrepresented, refused_line, represent};
use om_signs::{MAX_ELEMENTS, NoMemory, RawMap};
use om_threeterm::{ThreeRefused, check};
use std::alloc::Global;
use std::thread::Threads;

/// The result of the three-term test of a document.
pub fn test_three_terms<R: Threads + Sync>(
    rt: &R,
    alloc: Global,
    document: Document,
) -> Result<Answer, NoMemory>
    requires { IsInForm document }
    ensures { IfOk result (IsThreeTermTest document) }
{
    let Document {
        elements,
        body,
        names,
    } = document;
    match body {
        Body::Chirotope(raw) => Ok(Answer::Line(test_map(rt, raw))),
        body => {
            let document = Document {
                elements,
                body,
                names,
            };
            test_other(rt, alloc, document)
        }
    }
}

/// The line that states the result of the test of a map.
// never inlined, so that the tables of its callees aren't on the stack while other commands run
#[inline(never)]
fn test_map<R: Threads + Sync>(rt: &R, raw: RawMap) -> Line
    requires low { 1 ≤ raw.elements }
    requires high { raw.elements ≤ MAX_ELEMENTS }
    requires whole { IsMapOn raw.elements raw }
    ensures { IsTestOfMap raw (says result) }
{
    match check(rt, raw) {
        Ok(_) => Line::Accepted,
        Err(bad) => failure_line(bad.why),
    }
}

/// The line that names the first part of the test that fails.
fn failure_line(why: ThreeRefused) -> Line
    ensures { result ≡ failure_line why }
{
    match why {
        ThreeRefused::AllZero => Line::RefusedAllzero,
        ThreeRefused::NoExchange { b, c, e } => Line::RefusedNoexchange { b, c, e },
        ThreeRefused::ThreeTerm { p, q } => Line::RefusedThreeterm { p, q },
    }
}

/// The answer to a document that isn't that of a map: it is refused by the axioms of its kind, or because it is no
/// map.
fn test_other<R: Threads + Sync>(
    rt: &R,
    alloc: Global,
    document: Document,
) -> Result<Answer, NoMemory>
    requires form { IsInForm document }
    requires no_map { IsNoMap document.body }
    ensures { IfOk result (IsThreeTermTest document) }
{
    match represent(rt, alloc, document) {
        Ok(_representation) => Ok(Answer::Line(Line::RefusedNotmap)),
        Err(Unrepresented::Refused(why)) => Ok(Answer::Line(refused_line(why))),
        Err(Unrepresented::Flat) => Ok(Answer::Line(Line::RefusedNotmap)),
        Err(Unrepresented::Memory) => Err(NoMemory),
    }
}
