//! The words of wirings.

ghost use Rattle.std.specs.Prelude.{◌≡◌, ◌≤◌, IfSome};
ghost use Rattle.std.specs.List.{before_first, after_first};
ghost use Rattle.om_document.specs.Blocks.{position_of, is_dash, block_of};

use om_lines::lines::len_before;
use om_lines::words::plain_number;
use om_signs::{Block, MAX_POSITION_DIGITS};

/// The part of a word before its first `-`.
fn before_dash(word: &[u8]) -> &[u8]
    ensures { result.now ≡ before_first is_dash word.now }
{
    let end = len_before(word, b'-');
    &word[..end]
}

/// The part of a word after its first `-`, or no bytes if it has none.
fn after_dash(word: &[u8]) -> &[u8]
    ensures { result.now ≡ after_first is_dash word.now }
{
    let end = len_before(word, b'-');
    if end < word.len() {
        &word[end + 1..]
    } else {
        &word[end..]
    }
}

/// The position that a word spells: a plain number of at most [`MAX_POSITION_DIGITS`] digits.
fn position_of(word: &[u8]) -> Option<u16>
    ensures { result ≡ position_of word.now }
{
    if MAX_POSITION_DIGITS < word.len() {
        return None;
    }
    let number = plain_number(word)?;
    Some(number as u16)
}

/// The block that a word spells: two plain numbers of at most three digits with a `-` between them.
pub fn block_of(word: &[u8]) -> Option<Block>
    ensures { result ≡ block_of word.now }
{
    let first = position_of(before_dash(word))?;
    let last = position_of(after_dash(word))?;
    Some(Block { first, last })
}
