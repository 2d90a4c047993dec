//! The state of a reader after one more line.

ghost use Rattle.std.specs.Prelude.{◌≡◌, ◌<◌, ◌-◌, true, false, IfOk};
ghost use Rattle.om_document.specs.declared.document.Document.{Document};
ghost use Rattle.om_document.specs.declared.code.Code.{Code};
ghost use Rattle.om_lines.specs.Lines.{runs};
ghost use Rattle.om_document.specs.Settings.{version_of, in_lexicographic_order};
ghost use Rattle.om_document.specs.Document.{is_complete, is_complete_body};
ghost use Rattle.om_text.specs.Reading.{step, advance, takes_settings, finished_draft, open_step, after_body};
ghost use Rattle.om_text.specs.Reading.{after_end};
ghost use Rattle.om_text.specs.ReaderParts.{IsStepUnlessMemory, IsDocumentInRange, IsBodyInRange, IsStateInRange};
ghost use Rattle.om_text.specs.ReaderParts.{has_all_values};

use super::body_lines::with_line;
use super::draft::Draft;
use super::kind::kind_line;
use super::refusal::{Refusal, refuse};
use super::revlex::values_from_revlex;
use super::setting_lines::{begins_as_setting, setting_line};
use super::stage::Stage;
use super::state::State;
use om_document::{Body, Code, Document, Setting, Version};
use om_lines::lines::{before_comment, first_word, has_no_words, is_end, is_only_word, same};
use om_signs::{NoMemory, RawMap};
use om_subsets::Subset;
use std::alloc::Global;

/// The version that a first line names.
fn version_of(line: &[u8]) -> Option<Version>
    ensures { result ≡ version_of (runs line.now) }
{
    let (first, rest) = first_word(line)?;
    if !same(first, b"om") {
        None
    } else if is_only_word(rest, b"1") {
        Some(Version::One)
    } else if is_only_word(rest, b"2") {
        Some(Version::Two)
    } else {
        None
    }
}

fn is_full(body: &Body, elements: u8) -> bool
    requires { IsBodyInRange body.now }
    ensures { result ≡ is_complete_body body.now elements }
{
    match body {
        Body::Chirotope(map) => map.signs.len() == Subset::choose(map.elements, map.rank) as usize,
        Body::Points(points) => points.len() == elements as usize,
        Body::Circuits(_) | Body::Cocircuits(_) | Body::Covectors(_) | Body::Wiring(_) => true,
    }
}

/// A body with its values in lexicographic order.
fn in_lexicographic_order(setting: Setting, body: Body) -> Result<Body, NoMemory>
    requires small { IsBodyInRange body }
    requires full { has_all_values body ≡ true }
    ensures { IfOk result (λ b. b ≡ in_lexicographic_order setting body) }
{
    match (setting, body) {
        (Setting::Revlex, Body::Chirotope(map)) => {
            let signs = values_from_revlex(&map)?;
            Ok(Body::Chirotope(RawMap {
                rank: map.rank,
                elements: map.elements,
                signs,
            }))
        }
        (_, body) => Ok(body),
    }
}

/// The document of a draft that has all its lines.
fn finished(draft: Draft) -> Result<Document, NoMemory>
    requires small { IsDocumentInRange draft.document }
    requires full { is_complete draft.document ≡ true }
    ensures { IfOk result (λ d. d ≡ finished_draft draft) }
{
    let Document {
        elements,
        body,
        names,
    } = draft.document;
    let body = in_lexicographic_order(draft.setting, body)?;
    Ok(Document {
        elements,
        body,
        names,
    })
}

fn close(draft: Draft) -> Result<State, Refusal>
    requires { IsDocumentInRange draft.document }
    ensures { IsStepUnlessMemory result (after_end draft) }
{
    if is_full(&draft.document.body, draft.document.elements) {
        Ok(State::Closed(finished(draft)?))
    } else {
        refuse(draft, Refusal::Line(Code::Few))
    }
}

/// The state after a body line.
fn body_line(draft: Draft, line: &[u8]) -> Result<State, Refusal>
    requires { IsDocumentInRange draft.document }
    ensures { IsStepUnlessMemory result (after_body draft (runs line.now)) }
{
    let Document {
        elements,
        body,
        names,
    } = draft.document;
    let body = with_line(draft.setting, body, elements, line)?;
    Ok(State::Open(Draft {
        document: Document {
            elements,
            body,
            names,
        },
        setting: draft.setting,
        stage: Stage::Body,
    }))
}

/// Whether a line that begins as a setting line does must be a setting line.
fn takes_settings(stage: Stage) -> bool
    ensures { result ≡ takes_settings stage }
{
    match stage {
        Stage::Names | Stage::Choice | Stage::Full => true,
        Stage::Body => false,
    }
}

/// The state after one more non-blank line of a document that is still open.
fn open_line(alloc: Global, draft: Draft, line: &[u8]) -> Result<State, Refusal>
    requires { IsDocumentInRange draft.document }
    ensures { IsStepUnlessMemory result (open_step draft (runs line.now)) }
{
    if takes_settings(draft.stage) && begins_as_setting(line) {
        setting_line(alloc, draft, line)
    } else if is_end(line) {
        close(draft)
    } else {
        body_line(draft, line)
    }
}

/// The state after one more non-blank line.
fn step(alloc: Global, state: State, line: &[u8]) -> Result<State, Refusal>
    requires { IsStateInRange state }
    ensures { IsStepUnlessMemory result (step state (runs line.now)) }
{
    match state {
        State::Start => match version_of(line) {
            Some(version) => Ok(State::Versioned(version)),
            None => Err(Refusal::Line(Code::Version)),
        },
        State::Versioned(version) => kind_line(alloc, version, line).map_err(Refusal::Line),
        State::Open(draft) => open_line(alloc, draft, line),
        State::Closed(_) => Err(Refusal::Line(Code::After)),
    }
}

/// The state after one more line.
pub fn advance(alloc: Global, state: State, line: &[u8]) -> Result<State, Refusal>
    requires { IsStateInRange state }
    ensures { IsStepUnlessMemory result (advance state line.now) }
{
    let line = before_comment(line);
    if has_no_words(line) {
        Ok(state)
    } else {
        step(alloc, state, line)
    }
}
