//! What single words spell.

ghost use Rattle.std.specs.Prelude.{ℕ, ◌≡◌, ◌↔◌, ◌≤◌, List, IsTrue, map, length, string_bytes};
ghost use Rattle.std.specs.List.{list_all};
ghost use Rattle.om_signs.specs.declared.sign.Sign.{Sign};
ghost use Rattle.om_lines.specs.Words.{is_sign, sign_of_byte};
ghost use Rattle.om_words.specs.Words.{Spells, NamesKind, IsElement};

use super::options::number_within;
use om_document::Kind;
use om_lines::words::{is_sign_byte, sign_of_byte};
use om_signs::{MAX_ELEMENTS, SignVec};

/// Whether the word is this text.
pub fn is_word(word: &String, text: &str) -> bool
    ensures { IsTrue result ↔ (string_bytes word.now ≡ text.now) }
{
    word.as_str() == text
}

/// The element whose number the word is.
pub fn element(word: &String) -> Option<u8>
    ensures { (e : ℕ) → (result ≡ Some e) ↔ IsElement (string_bytes word.now) e }
{
    let e = number_within(word.as_bytes(), 1, u32::from(MAX_ELEMENTS))?;
    Some(e as u8)
}

/// The sign vector that the word spells.
pub fn spelled(word: &[u8]) -> Option<SignVec>
    ensures { (x : List Sign) → (result ≡ Some x) ↔ Spells word.now x }
{
    if word.is_empty() || word.len() > MAX_ELEMENTS as usize || !are_signs(word) {
        return None;
    }
    Some(sign_vector(word))
}

/// Whether each byte is a sign: `+`, `-` or `0`.
fn are_signs(word: &[u8]) -> bool
    ensures { result ≡ list_all is_sign word.now }
{
    word.iter().all(|b| is_sign_byte(*b))
}

/// The signs of the bytes.
fn sign_vector(word: &[u8]) -> SignVec
    requires low { 1 ≤ length word.now }
    requires high { length word.now ≤ MAX_ELEMENTS }
    ensures { result ≡ map sign_of_byte word.now }
{
    let mut x = SignVec::zero(word.len() as u8);
    for (place, byte) in word.iter().enumerate() {
        x = x.set(place as u8 + 1, sign_of_byte(*byte));
    }
    x
}

/// The kind that the word names.
pub fn named_kind(word: &String) -> Option<Kind>
    ensures { (kind : Kind) → (result ≡ Some kind) ↔ NamesKind (string_bytes word.now) kind }
{
    if is_word(word, "chirotope") {
        Some(Kind::Chirotope)
    } else if is_word(word, "circuits") {
        Some(Kind::Circuits)
    } else if is_word(word, "cocircuits") {
        Some(Kind::Cocircuits)
    } else if is_word(word, "covectors") {
        Some(Kind::Covectors)
    } else {
        None
    }
}
