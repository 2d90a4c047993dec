//! Commands with three elements after the first word.

ghost use Rattle.std.specs.Prelude.{ℕ, ◌≡◌, ◌↔◌, ◌<◌, ◌≤◌, ◌+◌, ◌^◌, map, string_bytes, IfErr};
ghost use Rattle.om_words.specs.Words.{IsRead};
ghost use Rattle.om_words.specs.Triples.{AreTriple, IsElementAt, IsElementWithin};

use super::spelling::element;
use om_printing::Usage;
use om_signs::MAX_ELEMENTS;

/// The element from `low` to `high` whose number the word is.
fn element_between(word: &String, low: u8, high: u8) -> Option<u8>
    ensures { (e : ℕ) → (result ≡ Some e) ↔ IsElementWithin (string_bytes word.now) low high e }
{
    let e = element(word)?;
    if low <= e && e <= high { Some(e) } else { None }
}

/// The element from `low` to `high` whose number is the word at this place. Places count from 0 after the first
/// word of a command.
pub fn element_at(rest: &[String], place: usize, low: u8, high: u8) -> Result<u8, Usage>
    requires { place + 2 < 2 ^ 32 }
    ensures value { (e : ℕ) → (result ≡ Ok e) ↔ IsElementAt (map string_bytes rest.now) place low high e }
    ensures fault { IfErr result (λ usage. usage.word ≡ place + 2) }
{
    if rest.len() <= place {
        return Err(Usage {
            word: place as u32 + 2,
        });
    }
    match element_between(&rest[place], low, high) {
        Some(e) => Ok(e),
        None => Err(Usage {
            word: place as u32 + 2,
        }),
    }
}

/// The three strictly increasing elements that the words after the first word of a command name.
pub fn triple(rest: &[String]) -> Result<(u8, u8, u8), Usage>
    ensures { IsRead AreTriple (map string_bytes rest.now) result }
{
    let a = element_at(rest, 0, 1, MAX_ELEMENTS - 2)?;
    let b = element_at(rest, 1, a + 1, MAX_ELEMENTS - 1)?;
    let c = element_at(rest, 2, b + 1, MAX_ELEMENTS)?;
    if rest.len() > 3 {
        return Err(Usage { word: 5 });
    }
    Ok((a, b, c))
}
