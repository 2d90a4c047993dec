//! The first words of commands.

ghost use Rattle.std.specs.Prelude.{◌≡◌, ◌↔◌, string_bytes};
ghost use Rattle.om_words.specs.Words.{verb_word};

use super::spelling::is_word;

/// The first word of a command.
#[derive(Clone, Copy)]
pub enum Verb {
    Accept,
    Member,
    Convert,
    Dual,
    Delete,
    Contract,
    Reorient,
    Wiring,
    Mutations,
    Flip,
    Extend,
    Paint,
    Hull,
    Lexext,
    Threeterm,
    Upgrade,
    Decide,
    Check,
    Make,
}

/// All verbs.
const VERBS: [Verb; 19] = [
    Verb::Accept,
    Verb::Member,
    Verb::Convert,
    Verb::Dual,
    Verb::Delete,
    Verb::Contract,
    Verb::Reorient,
    Verb::Wiring,
    Verb::Mutations,
    Verb::Flip,
    Verb::Extend,
    Verb::Paint,
    Verb::Hull,
    Verb::Lexext,
    Verb::Threeterm,
    Verb::Upgrade,
    Verb::Decide,
    Verb::Check,
    Verb::Make,
];

impl Verb {
    /// The text of the verb.
    fn word(self) -> &'static str
        ensures { result.now ≡ verb_word self }
    {
        match self {
            Verb::Accept => "accept",
            Verb::Member => "member",
            Verb::Convert => "convert",
            Verb::Dual => "dual",
            Verb::Delete => "delete",
            Verb::Contract => "contract",
            Verb::Reorient => "reorient",
            Verb::Wiring => "wiring",
            Verb::Mutations => "mutations",
            Verb::Flip => "flip",
            Verb::Extend => "extend",
            Verb::Paint => "paint",
            Verb::Hull => "hull",
            Verb::Lexext => "lexext",
            Verb::Threeterm => "threeterm",
            Verb::Upgrade => "upgrade",
            Verb::Decide => "decide",
            Verb::Check => "check",
            Verb::Make => "make",
        }
    }
}

/// The verb that the word names.
pub fn named_verb(word: &String) -> Option<Verb>
    ensures { (verb : Verb) → (result ≡ Some verb) ↔ (string_bytes word.now ≡ verb_word verb) }
{
    for verb in VERBS {
        if is_word(word, verb.word()) {
            return Some(verb);
        }
    }
    None
}
