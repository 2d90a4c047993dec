//! The setting lines of version 2.

ghost use Rattle.std.specs.Prelude.{◌≡◌, ℕ, ◌∷◌, [], cond, codes, Some, None, IfOk, bytes_eq};
ghost use Rattle.std.specs.List.{list_any};
ghost use Rattle.om_signs.specs.declared.raw_map.RawMap.{RawMap};
ghost use Rattle.om_lines.specs.Lines.{runs, is_line};
ghost use Rattle.om_document.specs.Names.{are_names};
ghost use Rattle.om_document.specs.Settings.{begins_as_setting, other_words, is_names_line, setting_in};
ghost use Rattle.om_text.specs.Reading.{after_choice, after_names, after_setting};
ghost use Rattle.om_text.specs.ReaderParts.{IsStepUnlessMemory};

use super::draft::Draft;
use super::refusal::{Refusal, refuse};
use super::stage::Stage;
use super::state::State;
use om_document::{Body, Code, Name, Setting};
use om_lines::lines::{first_word, is_only_word, same};
use om_signs::{List, NoMemory};
use std::alloc::Global;

/// Whether a line begins as a setting line does.
pub fn begins_as_setting(line: &[u8]) -> bool
    ensures { result ≡ begins_as_setting (runs line.now) }
{
    match first_word(line) {
        Some((first, _rest)) => {
            same(first, b"names") || same(first, b"order") || same(first, b"half")
        }
        None => false,
    }
}

fn has_name(names: &[Name], word: &[u8]) -> bool
    ensures { result ≡ list_any (λ name. bytes_eq name word.now) names.now }
{
    names.iter().any(|name| same(name.as_bytes(), word))
}

/// Appends the names that words spell to an empty list, up to the first word that is none or comes again. Whether the
/// words are a name for each of this many elements, and no two of them are equal.
fn push_names(names: &mut List<Name>, elements: u8, words: &[u8]) -> Result<bool, NoMemory>
    requires { names.old ≡ [] }
    ensures { IfOk result (λ named. cond named (Some names.new) None
        ≡ cond (are_names elements (runs words.now)) (Some (runs words.now)) None) }
{
    let mut rest = words;
    while let Some((word, after)) = first_word(rest) {
        if names.len() == elements as usize || has_name(names.as_slice(), word) {
            return Ok(false);
        }
        let Some(name) = Name::new(word) else {
            return Ok(false);
        };
        names.push(name)?;
        rest = after;
    }
    Ok(names.len() == elements as usize)
}

/// The names that words spell, if there is one for each of this many elements, and no two of them are equal.
fn names_on(alloc: Global, elements: u8, words: &[u8]) -> Result<Option<List<Name>>, NoMemory>
    ensures { IfOk result (λ found. found ≡ cond (are_names elements (runs words.now)) (Some (runs words.now)) None) }
{
    let mut names = List::new(alloc);
    if push_names(&mut names, elements, words)? {
        Ok(Some(names))
    } else {
        Ok(None)
    }
}

/// The order that an `order` line names.
fn order_of(line: &[u8]) -> Option<Setting>
    ensures { (m : RawMap) → result ≡ setting_in (Body.Chirotope m) (runs line.now) }
{
    let (first, rest) = first_word(line)?;
    if !same(first, b"order") {
        None
    } else if is_only_word(rest, b"lex") {
        Some(Setting::Plain)
    } else if is_only_word(rest, b"revlex") {
        Some(Setting::Revlex)
    } else {
        None
    }
}

fn half_of(line: &[u8]) -> Option<Setting>
    ensures { result ≡ cond (is_line (runs line.now) (codes "half" ∷ [])) (Some Setting.Half) None }
{
    if is_only_word(line, b"half") {
        Some(Setting::Half)
    } else {
        None
    }
}

/// What a setting line other than `names` says about the lines of this kind of body.
fn setting_of(body: &Body, line: &[u8]) -> Option<Setting>
    ensures { result ≡ setting_in body.now (runs line.now) }
{
    match body {
        Body::Chirotope(_) => order_of(line),
        Body::Circuits(_) | Body::Cocircuits(_) | Body::Covectors(_) => half_of(line),
        Body::Wiring(_) | Body::Points(_) => None,
    }
}

/// A draft with the setting of one more line.
fn choice(mut draft: Draft, line: &[u8]) -> Result<State, Refusal>
    ensures { IsStepUnlessMemory result (after_choice draft (runs line.now)) }
{
    match setting_of(&draft.document.body, line) {
        Some(setting) => {
            draft.setting = setting;
            draft.stage = Stage::Full;
            Ok(State::Open(draft))
        }
        None => refuse(draft, Refusal::Line(Code::Setting)),
    }
}

/// The names of a `names` line for this many elements.
fn names_line(alloc: Global, elements: u8, line: &[u8]) -> Result<Option<List<Name>>, NoMemory>
    ensures { IfOk result (λ found. found
        ≡ cond (is_names_line elements (runs line.now)) (Some (other_words (runs line.now))) None) }
{
    match first_word(line) {
        Some((first, rest)) if same(first, b"names") => names_on(alloc, elements, rest),
        _ => Ok(None),
    }
}

/// A draft after the kind line, with one more line.
fn names_or_choice(alloc: Global, mut draft: Draft, line: &[u8]) -> Result<State, Refusal>
    ensures { IsStepUnlessMemory result (after_names draft (runs line.now)) }
{
    match names_line(alloc, draft.document.elements, line) {
        Ok(Some(names)) => {
            draft.document.names = names;
            draft.stage = Stage::Choice;
            Ok(State::Open(draft))
        }
        Ok(None) => choice(draft, line),
        Err(NoMemory) => refuse(draft, Refusal::Memory),
    }
}

/// The state after a line that begins as a setting line does, if setting lines are allowed.
pub fn setting_line(alloc: Global, draft: Draft, line: &[u8]) -> Result<State, Refusal>
    ensures { IsStepUnlessMemory result (after_setting draft.stage draft (runs line.now)) }
{
    match draft.stage {
        Stage::Names => names_or_choice(alloc, draft, line),
        Stage::Choice => choice(draft, line),
        Stage::Full | Stage::Body => refuse(draft, Refusal::Line(Code::Setting)),
    }
}
