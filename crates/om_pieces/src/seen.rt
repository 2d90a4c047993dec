//! What was seen of a line so far.

ghost use Rattle.std.specs.Prelude.{◌≡◌};
ghost use Rattle.om_pieces.specs.SeenOfLine.{with_comment, with_blank, with_letter, seen_with};
ghost use Rattle.om_pieces.specs.SeenOfLine.{some_seen, end_seen, om_seen};

use om_lines::lines::is_blank_byte;

/// What was seen of a line so far. It is enough to decide whether the line has a word, is the word `end` alone, or
/// begins with the word `om`.
#[derive(Clone, Copy)]
pub enum Seen {
    /// No word.
    Blank,
    /// No word, and a comment.
    BlankComment,
    /// The first word, which so far is `e`.
    E,
    /// The first word, which so far is `en`.
    En,
    /// The first word, which so far is `end`.
    End,
    /// The word `end`, followed by blanks.
    EndBlank,
    /// The word `end` alone, and a comment.
    EndComment,
    /// The first word, which so far is `o`.
    O,
    /// The first word, which so far is `om`.
    Om,
    /// The first word `om`, followed by more.
    OmMore,
    /// Some other word.
    Other,
}

impl Seen {
    /// What is seen with this byte, which is no line feed.
    pub fn with(self, byte: u8) -> Seen
        ensures { result ≡ seen_with self byte }
    {
        if byte == b'#' {
            self.with_comment()
        } else if is_blank_byte(byte) {
            self.with_blank()
        } else {
            self.with_letter(byte)
        }
    }

    fn with_comment(self) -> Seen
        ensures { result ≡ with_comment self }
    {
        match self {
            Seen::Blank => Seen::BlankComment,
            Seen::BlankComment => Seen::BlankComment,
            Seen::End => Seen::EndComment,
            Seen::EndBlank => Seen::EndComment,
            Seen::EndComment => Seen::EndComment,
            Seen::Om => Seen::OmMore,
            Seen::OmMore => Seen::OmMore,
            Seen::E | Seen::En | Seen::O | Seen::Other => Seen::Other,
        }
    }

    fn with_blank(self) -> Seen
        ensures { result ≡ with_blank self }
    {
        match self {
            Seen::Blank => Seen::Blank,
            Seen::BlankComment => Seen::BlankComment,
            Seen::End => Seen::EndBlank,
            Seen::EndBlank => Seen::EndBlank,
            Seen::EndComment => Seen::EndComment,
            Seen::Om => Seen::OmMore,
            Seen::OmMore => Seen::OmMore,
            Seen::E | Seen::En | Seen::O | Seen::Other => Seen::Other,
        }
    }

    fn with_letter(self, byte: u8) -> Seen
        ensures { result ≡ with_letter self byte }
    {
        match self {
            Seen::Blank => {
                if byte == b'e' {
                    Seen::E
                } else if byte == b'o' {
                    Seen::O
                } else {
                    Seen::Other
                }
            }
            Seen::BlankComment => Seen::BlankComment,
            Seen::E => { if byte == b'n' { Seen::En } else { Seen::Other } }
            Seen::En => { if byte == b'd' { Seen::End } else { Seen::Other } }
            Seen::EndComment => Seen::EndComment,
            Seen::O => { if byte == b'm' { Seen::Om } else { Seen::Other } }
            Seen::OmMore => Seen::OmMore,
            Seen::End | Seen::EndBlank | Seen::Om | Seen::Other => Seen::Other,
        }
    }

    /// Whether the line has a word.
    pub fn has_word(self) -> bool
        ensures { result ≡ some_seen self }
    {
        match self {
            Seen::Blank | Seen::BlankComment => false,
            Seen::E | Seen::En | Seen::End | Seen::EndBlank | Seen::EndComment => true,
            Seen::O | Seen::Om | Seen::OmMore | Seen::Other => true,
        }
    }

    /// Whether the line is the word `end` alone.
    pub fn closes(self) -> bool
        ensures { result ≡ end_seen self }
    {
        match self {
            Seen::End | Seen::EndBlank | Seen::EndComment => true,
            Seen::Blank | Seen::BlankComment | Seen::E | Seen::En => false,
            Seen::O | Seen::Om | Seen::OmMore | Seen::Other => false,
        }
    }

    /// Whether the first word of the line is `om`.
    pub fn opens(self) -> bool
        ensures { result ≡ om_seen self }
    {
        match self {
            Seen::Om | Seen::OmMore => true,
            Seen::Blank | Seen::BlankComment | Seen::E | Seen::En | Seen::End => false,
            Seen::EndBlank | Seen::EndComment | Seen::O | Seen::Other => false,
        }
    }
}
