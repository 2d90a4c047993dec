//! Distinct elements with signs.

ghost use Rattle.std.specs.Prelude.{◌≡◌, ◌<◌, map, length, string_bytes, IfSome, IfNone, Some, true, false};
ghost use Rattle.om_words.specs.Words.{IsRead};
ghost use Rattle.om_words.specs.Listings.{AreLeading};
ghost use Rattle.om_words.specs.ListingSteps.{signed_of, has_element, is_among, is_leading};

use super::limits::MAX_LISTED;
use super::options::number_within;
use om_lexext::Signed;
use om_printing::Usage;
use om_signs::{MAX_ELEMENTS, Sign};

/// The value at the places that no word fills.
const UNLISTED: Signed = Signed {
    element: 1,
    sign: Sign::Plus,
};

/// Distinct elements with signs.
#[derive(Clone, Copy)]
pub struct Leading {
    /// The elements with their signs. The places from `count` on hold element 1 with `+`.
    pub list: [Signed; MAX_LISTED],
    /// The number of listed elements, from 1 to [`MAX_LISTED`].
    pub count: u8,
}

/// The element with a sign that the word spells.
fn signed_of(word: &[u8]) -> Option<Signed>
    ensures { result ≡ signed_of word.now }
{
    let (sign, digits) = match word {
        [b'+', digits @ ..] => (Sign::Plus, digits),
        [b'-', digits @ ..] => (Sign::Minus, digits),
        _ => return None,
    };
    let element = number_within(digits, 1, u32::from(MAX_ELEMENTS))?;
    Some(Signed {
        element: element as u8,
        sign,
    })
}

/// Whether the word spells element e with a sign.
fn has_element(word: &String, e: u8) -> bool
    ensures { result ≡ has_element e (signed_of (string_bytes word.now)) }
{
    match signed_of(word.as_bytes()) {
        Some(x) => x.element == e,
        None => false,
    }
}

/// Whether some word spells element e with a sign.
fn is_among(e: u8, words: &[String]) -> bool
    ensures { result ≡ is_among e (map string_bytes words.now) }
{
    for word in words {
        if has_element(word, e) {
            return true;
        }
    }
    false
}

/// The element with a sign that the word spells, if there is room for it and no earlier word spells this element.
fn leading_of(before: &[String], word: &String) -> Option<Signed>
    ensures none { IfNone result (is_leading (map string_bytes before.now) (string_bytes word.now) ≡ false) }
    ensures leading { IfSome result (λ x. is_leading (map string_bytes before.now) (string_bytes word.now) ≡ true) }
    ensures value { IfSome result (λ x. signed_of (string_bytes word.now) ≡ Some x) }
    ensures room { IfSome result (λ x. length before.now < MAX_LISTED) }
{
    if before.len() >= MAX_LISTED {
        return None;
    }
    let x = signed_of(word.as_bytes())?;
    if is_among(x.element, before) {
        None
    } else {
        Some(x)
    }
}

/// The distinct elements with signs, at least one, that the words after the first word of a command spell.
pub fn signed_elements(rest: &[String]) -> Result<Leading, Usage>
    ensures { IsRead AreLeading (map string_bytes rest.now) result }
{
    let mut list = [UNLISTED; MAX_LISTED];
    for (i, word) in rest.iter().enumerate() {
        let Some(x) = leading_of(&rest[..i], word) else {
            return Err(Usage { word: i as u32 + 2 });
        };
        list[i] = x;
    }
    if rest.is_empty() {
        return Err(Usage { word: 2 });
    }
    Ok(Leading {
        list,
        count: rest.len() as u8,
    })
}
