//! The lines of bytes, and the words of a line.
//!
//! A line is a run of bytes between line feeds. A last one that no line feed ends counts if it isn't empty.
//! Everything in it from the first `#` on is a comment. Its words are the longest runs of bytes other than space,
//! tab and carriage return.

ghost use Rattle.std.specs.Prelude.{◌≡◌, ◌+◌, ◌<◌, ◌≤◌, ◌∷◌, [], length, nat_eq, not, ◌||◌, MatchOption, IfSome};
ghost use Rattle.std.specs.Prelude.{bytes_eq};
ghost use Rattle.std.specs.List.{position_or_len};
ghost use Rattle.om_lines.specs.Lines.{lines, IsSplit, uncommented, runs, is_blank, has_any, is_line, end_line};

/// Whether a word has these bytes.
pub fn same(word: &[u8], text: &[u8]) -> bool
    ensures { result ≡ bytes_eq word.now text.now }
{
    word == text
}

/// How many bytes come before the first byte with this value.
pub fn len_before(bytes: &[u8], byte: u8) -> usize
    ensures value { result ≡ position_or_len (λ b. nat_eq b byte) bytes.now }
    ensures within { result ≤ length bytes.now }
{
    bytes.iter().position(|b| *b == byte).unwrap_or(bytes.len())
}

/// The first line without its line feed, and the bytes after it. The bytes are not empty.
pub fn first_line(bytes: &[u8]) -> (&[u8], &[u8])
    requires { 0 < length bytes.now }
    ensures lines { lines bytes.now ≡ result.0.now ∷ lines result.1.now }
    ensures split { IsSplit bytes.now result.0.now result.1.now }
    ensures shorter { length result.1.now < length bytes.now }
{
    let end = len_before(bytes, b'\n');
    let line = &bytes[..end];
    if end < bytes.len() {
        (line, &bytes[end + 1..])
    } else {
        (line, &bytes[end..])
    }
}

/// The part of a line before its comment.
pub fn before_comment(line: &[u8]) -> &[u8]
    ensures { result.now ≡ uncommented line.now }
{
    let end = len_before(line, b'#');
    &line[..end]
}

/// Whether a byte is a space, a tab or a carriage return. Every other byte is part of a word.
pub fn is_blank_byte(byte: u8) -> bool
    ensures { result ≡ is_blank byte }
{
    byte == b' ' || byte == b'\t' || byte == b'\r'
}

/// The number of blanks that a line begins with.
fn blank_len(line: &[u8]) -> usize
    ensures value { result ≡ position_or_len (λ b. not (is_blank b)) line.now }
    ensures within { result ≤ length line.now }
{
    line.iter()
        .position(|b| !is_blank_byte(*b))
        .unwrap_or(line.len())
}

/// The number of bytes other than blanks that a line begins with.
fn word_len(line: &[u8]) -> usize
    ensures value { result ≡ position_or_len is_blank line.now }
    ensures within { result ≤ length line.now }
{
    line.iter()
        .position(|b| is_blank_byte(*b))
        .unwrap_or(line.len())
}

/// The first word of a line without a comment, and what follows the word.
pub fn first_word(line: &[u8]) -> Option<(&[u8], &[u8])>
    ensures words { MatchOption result (runs line.now ≡ []) (λ found. runs line.now ≡ found.0.now ∷ runs found.1.now) }
    ensures shorter { IfSome result (λ found. length found.1.now < length line.now) }
{
    let rest = &line[blank_len(line)..];
    let end = word_len(rest);
    if end == 0 {
        return None;
    }
    Some((&rest[..end], &rest[end..]))
}

/// Whether a line without a comment has no words.
pub fn has_no_words(line: &[u8]) -> bool
    ensures { result ≡ not (has_any (runs line.now)) }
{
    line.iter().all(|b| is_blank_byte(*b))
}

/// Whether a line without a comment has this word and no other.
pub fn is_only_word(line: &[u8], word: &[u8]) -> bool
    ensures { result ≡ is_line (runs line.now) (word.now ∷ []) }
{
    match first_word(line) {
        Some((first, rest)) => same(first, word) && has_no_words(rest),
        None => false,
    }
}

/// Whether a line without a comment has the word `end` and no other.
pub fn is_end(line: &[u8]) -> bool
    ensures { result ≡ is_line (runs line.now) end_line }
{
    match line[blank_len(line)..].strip_prefix(b"end") {
        Some(rest) => has_no_words(rest),
        None => false,
    }
}
