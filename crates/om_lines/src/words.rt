//! What words spell: numbers and signs.

ghost use Rattle.std.specs.Prelude.{◌≡◌, ◌+◌, ◌-◌, ◌*◌, ◌^◌, ◌<◌, ◌≤◌, [], length, true, IfSome, unsigned_abs};
ghost use Rattle.std.specs.List.{list_all};
ghost use Rattle.om_lines.specs.Words.{is_digit, is_decimal, is_plain, plain, number_from, up_to, unsigned, signed};
ghost use Rattle.om_lines.specs.Words.{is_sign, sign_of_byte, byte_of, begins_with};

use om_signs::{MAX_PLAIN_DIGITS, Sign};

/// The number that a word of at most [`MAX_PLAIN_DIGITS`] digits spells.
fn spelled(word: &[u8]) -> u32
    requires digits { list_all is_digit word.now ≡ true }
    requires short { length word.now ≤ MAX_PLAIN_DIGITS }
    ensures { result ≡ number_from 0 word.now }
{
    let mut number = 0u32;
    for b in word {
        number = 10 * number + u32::from(*b - b'0');
    }
    number
}

fn are_digits(word: &[u8]) -> bool
    ensures { result ≡ list_all is_digit word.now }
{
    word.iter().all(|b| b.is_ascii_digit())
}

fn begins_with_zero(word: &[u8]) -> bool
    ensures { result ≡ begins_with 48 word.now }
{
    match word {
        [first, ..] => *first == b'0',
        [] => false,
    }
}

fn is_decimal_word(word: &[u8]) -> bool
    ensures { result ≡ is_decimal word.now }
{
    let digits = are_digits(word);
    let zero = begins_with_zero(word);
    let len = word.len();
    digits && 1 <= len && (len == 1 || !zero)
}

fn is_plain_word(word: &[u8]) -> bool
    ensures { result ≡ is_plain word.now }
{
    is_decimal_word(word) && word.len() <= MAX_PLAIN_DIGITS
}

/// The plain number that a word spells: 1 to 6 decimal digits without a leading zero, except `0` itself.
pub fn plain_number(word: &[u8]) -> Option<u32>
    ensures { result ≡ plain word.now }
{
    if is_plain_word(word) {
        Some(spelled(word))
    } else {
        None
    }
}

/// The number that digits spell, if it is at most `limit`.
fn spelled_up_to(word: &[u8], limit: u128) -> Option<u128>
    requires digits { list_all is_digit word.now ≡ true }
    requires room { limit < 2 ^ 120 }
    ensures { result ≡ up_to limit (number_from 0 word.now) }
{
    let mut number = 0u128;
    for b in word {
        number = 10 * number + u128::from(*b - b'0');
        if limit < number {
            return None;
        }
    }
    Some(number)
}

fn decimal_number(word: &[u8], limit: u128) -> Option<u128>
    requires { limit < 2 ^ 120 }
    ensures value { result ≡ unsigned limit word.now }
    ensures within { IfSome result (λ n. n ≤ limit) }
{
    if is_decimal_word(word) {
        spelled_up_to(word, limit)
    } else {
        None
    }
}

/// The number of at most `limit` that a word spells: any number of decimal digits without a leading zero, except
/// `0` itself. None for every other word.
pub fn unsigned_number(word: &[u8], limit: u64) -> Option<u64>
    ensures value { result ≡ unsigned limit word.now }
    ensures within { IfSome result (λ n. n ≤ limit) }
{
    let number = decimal_number(word, u128::from(limit))?;
    Some(number as u64)
}

/// The number of absolute value at most `limit` that a word spells: any number of decimal digits without a leading
/// zero, with or without a `-` before them. `0` is written without a sign. None for every other word. `limit` is
/// below 2^120.
pub fn signed_number(word: &[u8], limit: u128) -> Option<i128>
    requires { limit < 2 ^ 120 }
    ensures value { result ≡ signed limit word.now }
    ensures within { IfSome result (λ z. unsigned_abs z ≤ limit) }
{
    match word {
        [b'-', digits @ ..] => match decimal_number(digits, limit) {
            Some(0) => None,
            Some(number) => Some(-(number as i128)),
            None => None,
        },
        _ => match decimal_number(word, limit) {
            Some(number) => Some(number as i128),
            None => None,
        },
    }
}

/// Whether a byte is `+`, `-` or `0`, the bytes of signs.
pub fn is_sign_byte(byte: u8) -> bool
    ensures { result ≡ is_sign byte }
{
    matches!(byte, b'+' | b'-' | b'0')
}

/// The sign of a byte; zero for every byte other than `+` and `-`.
pub fn sign_of_byte(byte: u8) -> Sign
    ensures { result ≡ sign_of_byte byte }
{
    match byte {
        b'+' => Sign::Plus,
        b'-' => Sign::Minus,
        _ => Sign::Zero,
    }
}

/// The byte of a sign: `-`, `0` or `+`.
pub fn byte_of_sign(sign: Sign) -> u8
    ensures { result ≡ byte_of sign }
{
    match sign {
        Sign::Minus => b'-',
        Sign::Zero => b'0',
        Sign::Plus => b'+',
    }
}
