//! Numbers that follow one another on a line.

ghost use Rattle.std.specs.Prelude.{◌≡◌, ◌≤◌, ◌<◌, ◌^◌, ◌∷◌, [], length, MatchOption, IfSome, Some, None, All};
ghost use Rattle.std.specs.Prelude.{FitsSigned};
ghost use Rattle.std.specs.Int.{w128};
ghost use Rattle.om_lines.specs.Lines.{runs};
ghost use Rattle.om_answer.specs.Numbers.{number_within, numbers_within, IsReadable, IsIn, AreIn};

use super::range::Range;
use om_lines::lines::{first_word, has_no_words};
use om_lines::words::{signed_number, unsigned_number};
use smallvec::SmallVec;
use std::alloc::Global;

/// The most numbers of a line that are kept.
pub const MOST_NUMBERS: usize = 16;

/// The number in a range that a word spells.
fn number_of(range: Range, word: &[u8]) -> Option<i128>
    requires { IsReadable range }
    ensures value { result ≡ number_within range word.now }
    ensures fits { IfSome result (λ z. FitsSigned w128 z) }
    ensures within { IfSome result (λ z. IsIn range z) }
{
    match range {
        Range::Between(low, high) => match unsigned_number(word, high) {
            Some(number) => {
                if low <= number {
                    Some(i128::from(number))
                } else {
                    None
                }
            }
            None => None,
        },
        Range::UpToSize(size) => signed_number(word, size),
    }
}

/// The numbers that the words of a line spell, if there are as many as ranges and each is in its own.
pub fn numbers_of(
    alloc: Global,
    ranges: &[Range],
    line: &[u8],
) -> Option<SmallVec<i128, MOST_NUMBERS>>
    requires few { length ranges.now ≤ MOST_NUMBERS }
    requires readable { All IsReadable ranges.now }
    ensures value { MatchOption result (numbers_within ranges.now (runs line.now) ≡ None)
        (λ v. numbers_within ranges.now (runs line.now) ≡ Some v.items) }
    ensures within { IfSome result (λ v. AreIn ranges.now v.items) }
{
    let mut numbers = SmallVec::new(alloc);
    let mut rest = line;
    for range in ranges {
        let (word, after) = first_word(rest)?;
        numbers.push_reserved(number_of(*range, word)?);
        rest = after;
    }
    if has_no_words(rest) {
        Some(numbers)
    } else {
        None
    }
}
