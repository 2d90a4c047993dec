//! The lines of points.

ghost use Rattle.std.specs.Prelude.{◌≡◌, MatchOption, Some, None};
ghost use Rattle.om_lines.specs.Lines.{runs};
ghost use Rattle.om_document.specs.Points.{coordinate, point_of};
ghost use Rattle.om_text.specs.ReaderParts.{first_coordinate};

use om_lines::lines::{first_word, has_no_words};
use om_lines::words::signed_number;
use om_signs::MAX_COORDINATE;

fn coordinate_of(word: &[u8]) -> Option<i64>
    ensures { result ≡ coordinate word.now }
{
    let number = signed_number(word, u128::from(MAX_COORDINATE.unsigned_abs()))?;
    Some(number as i64)
}

/// The coordinate that the first word of a line spells, and what follows the word.
fn first_coordinate(line: &[u8]) -> Option<(i64, &[u8])>
    ensures { MatchOption result (first_coordinate (runs line.now) ≡ None)
        (λ found. first_coordinate (runs line.now) ≡ Some (found.0, runs found.1.now)) }
{
    let (word, rest) = first_word(line)?;
    Some((coordinate_of(word)?, rest))
}

/// The point that the words of a line spell.
pub fn point(line: &[u8]) -> Option<[i64; 3]>
    ensures { result ≡ point_of (runs line.now) }
{
    let (x, rest) = first_coordinate(line)?;
    let (y, rest) = first_coordinate(rest)?;
    let (z, rest) = first_coordinate(rest)?;
    if has_no_words(rest) {
        Some([x, y, z])
    } else {
        None
    }
}
