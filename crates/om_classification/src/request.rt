//! The words of the program, and what they ask.

ghost use Rattle.std.specs.Prelude.{◌≡◌, ◌↔◌, ◌∷◌, IfErr, IsTrue, map, string_bytes};
ghost use Rattle.om_words.specs.Words.{IsFault};
ghost use Rattle.om_classification.specs.Requests.{IsRequest, Names, family_word, least_word};

use om_chain::Asked;
use om_levels::Family;
use om_printing::Usage;

/// What the words ask.
#[derive(Clone, Copy, Debug, PartialEq, Eq)]
pub enum Request {
    /// Lists are to be shown.
    Lists(ListRequest),
    /// The least map of the class of each document is to be written.
    Least,
}

/// Of which family lists are, and what is shown of each.
#[derive(Clone, Copy, Debug, PartialEq, Eq)]
pub struct ListRequest {
    pub family: Family,
    pub asked: Asked,
}

/// What the words ask. `all` names the simple chirotopes and `uniform` the uniform ones. Alone it asks for exact lists,
/// and with `--complete` behind it for complete ones. `least` alone asks for least maps. [`Usage`] comes exactly for
/// other words, and says which one is at fault. The call allocates no memory.
pub fn request_of(words: &[String]) -> Result<Request, Usage>
    ensures request { (r : Request) → (result ≡ Ok r) ↔ Names (map string_bytes words.now) r }
    ensures usage { IfErr result (λ usage. IsFault IsRequest (map string_bytes words.now) usage.word) }
{
    match words {
        [] => Err(Usage { word: 1 }),
        [first, rest @ ..] => after_first(first, rest),
    }
}

/// What the first word and the words after it ask.
fn after_first(first: &String, rest: &[String]) -> Result<Request, Usage>
    ensures request { (r : Request) → (result ≡ Ok r) ↔ Names (string_bytes first.now ∷ map string_bytes rest.now) r }
    ensures usage { IfErr result (λ usage.
        IsFault IsRequest (string_bytes first.now ∷ map string_bytes rest.now) usage.word) }
{
    if is_word(first, "least") {
        return after_least(rest);
    }
    match named_family(first) {
        Some(family) => after_family(family, rest),
        None => Err(Usage { word: 1 }),
    }
}

/// What the words after `least` ask.
fn after_least(rest: &[String]) -> Result<Request, Usage>
    ensures request { (r : Request) → (result ≡ Ok r) ↔ Names (least_word ∷ map string_bytes rest.now) r }
    ensures usage { IfErr result (λ usage. IsFault IsRequest (least_word ∷ map string_bytes rest.now) usage.word) }
{
    match rest {
        [] => Ok(Request::Least),
        [_, ..] => Err(Usage { word: 2 }),
    }
}

/// The family that a word names.
fn named_family(word: &String) -> Option<Family>
    ensures { (family : Family) → (result ≡ Some family) ↔ (string_bytes word.now ≡ family_word family) }
{
    match word.as_str() {
        "all" => Some(Family::Simple),
        "uniform" => Some(Family::Uniform),
        _ => None,
    }
}

/// What the words after that of a family ask.
fn after_family(family: Family, rest: &[String]) -> Result<Request, Usage>
    ensures request { (r : Request) → (result ≡ Ok r) ↔ Names (family_word family ∷ map string_bytes rest.now) r }
    ensures usage { IfErr result (λ usage.
        IsFault IsRequest (family_word family ∷ map string_bytes rest.now) usage.word) }
{
    match rest {
        [] => Ok(Request::Lists(ListRequest {
            family,
            asked: Asked::Exact,
        })),
        [option, more @ ..] => after_option(family, option, more),
    }
}

/// What the words after that of a family ask, if there are some.
fn after_option(family: Family, option: &String, more: &[String]) -> Result<Request, Usage>
    ensures request { (r : Request) → (result ≡ Ok r)
        ↔ Names (family_word family ∷ string_bytes option.now ∷ map string_bytes more.now) r }
    ensures usage { IfErr result (λ usage.
        IsFault IsRequest (family_word family ∷ string_bytes option.now ∷ map string_bytes more.now) usage.word) }
{
    if !is_word(option, "--complete") {
        return Err(Usage { word: 2 });
    }
    match more {
        [] => Ok(Request::Lists(ListRequest {
            family,
            asked: Asked::Complete,
        })),
        [_, ..] => Err(Usage { word: 3 }),
    }
}

/// Whether the word is this text.
fn is_word(word: &String, text: &str) -> bool
    ensures { IsTrue result ↔ (string_bytes word.now ≡ text.now) }
{
    word.as_str() == text
}
