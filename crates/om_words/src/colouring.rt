//! A colouring of the elements, together with an element.

ghost use Rattle.std.specs.Prelude.{◌≡◌, map, string_bytes};
ghost use Rattle.om_words.specs.Words.{IsRead};
ghost use Rattle.om_words.specs.Listings.{AreColouring};
ghost use Rattle.om_words.specs.ListingSteps.{colour_of, colours_of};

use super::limits::MAX_LISTED;
use super::triple::element_at;
use om_oriented::Colour;
use om_printing::Usage;
use om_signs::MAX_ELEMENTS;

/// A colouring of the elements, together with an element.
#[derive(Clone, Copy)]
pub struct Colouring {
    /// The colours of the elements from 1 on. The places from `count` on are white.
    pub colours: [Colour; MAX_LISTED],
    /// The number of colours, from 1 to [`MAX_LISTED`].
    pub count: u8,
    /// The element, from 1 to [`MAX_ELEMENTS`].
    pub e: u8,
}

/// The colour of a letter.
fn colour_of(letter: u8) -> Option<Colour>
    ensures { result ≡ colour_of letter }
{
    match letter {
        b'R' => Some(Colour::Red),
        b'G' => Some(Colour::Green),
        b'B' => Some(Colour::Black),
        b'W' => Some(Colour::White),
        _ => None,
    }
}

/// The colours of a word of letters.
fn colours_of(word: &[u8]) -> Option<[Colour; MAX_LISTED]>
    ensures { result ≡ colours_of word.now }
{
    if word.is_empty() || word.len() > MAX_LISTED {
        return None;
    }
    let mut colours = [Colour::White; MAX_LISTED];
    for (i, letter) in word.iter().enumerate() {
        colours[i] = colour_of(*letter)?;
    }
    Some(colours)
}

/// The colouring and the element that the words after the first word of a command spell.
pub fn colours_and_element(rest: &[String]) -> Result<Colouring, Usage>
    ensures { IsRead AreColouring (map string_bytes rest.now) result }
{
    if rest.is_empty() {
        return Err(Usage { word: 2 });
    }
    let word = rest[0].as_bytes();
    let Some(colours) = colours_of(word) else {
        return Err(Usage { word: 2 });
    };
    let e = element_at(rest, 1, 1, MAX_ELEMENTS)?;
    if rest.len() > 2 {
        return Err(Usage { word: 4 });
    }
    Ok(Colouring {
        colours,
        count: word.len() as u8,
        e,
    })
}
