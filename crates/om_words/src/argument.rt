//! Commands with one word after the first one.

ghost use Rattle.std.specs.Prelude.{ℕ, ◌≡◌, ◌↔◌, ◌∷◌, List, map, string_bytes};
ghost use Rattle.om_words.specs.Words.{IsAlone, IsRead};

use super::spelling::{element, named_kind, spelled};
use om_document::Kind;
use om_printing::Usage;
use om_signs::SignVec;

/// A value that a single word can spell.
pub trait Argument: Copy {
    /// The word spells the value.
    ghost spells: { List ℕ → Self → Type 0 };

    /// The value that a word spells.
    fn read(word: &String) -> Option<Self>
        ensures { (a : Self) → (result ≡ Some a) ↔ spells (string_bytes word.now) a };

    /// Some word spells some value.
    ghost some: { (word : List ℕ) × ((a : Self) × spells word a) };
}

impl Argument for SignVec {
    ghost use Rattle.std.specs.Prelude.{codes, ◌∷◌, []};
    ghost use Rattle.om_signs.specs.declared.sign.Sign.TheVariants.{Plus};
    ghost use Rattle.om_words.specs.Words.{Spells};
    ghost use Rattle.om_words.specs.Samples.{plus_spelled};

    ghost spells = { Spells };

    ghost some = { (codes "+", (Plus ∷ [], plus_spelled)) };

    fn read(word: &String) -> Option<SignVec> {
        spelled(word.as_bytes())
    }
}

impl Argument for Kind {
    ghost use Rattle.std.specs.Prelude.{codes, refl};
    ghost use Rattle.om_document.specs.declared.kinds.Kind.TheVariants.{Circuits};
    ghost use Rattle.om_words.specs.Words.{NamesKind};

    ghost spells = { NamesKind };

    ghost some = { (codes "circuits", (Circuits, refl)) };

    fn read(word: &String) -> Option<Kind> {
        named_kind(word)
    }
}

impl Argument for u8 {
    ghost use Rattle.std.specs.Prelude.{codes};
    ghost use Rattle.om_words.specs.Words.{IsElement};
    ghost use Rattle.om_words.specs.Samples.{one_spelled};

    ghost spells = { IsElement };

    ghost some = { (codes "1", (1, one_spelled)) };

    fn read(word: &String) -> Option<u8> {
        element(word)
    }
}

/// The value of the single word after the first word of a command.
pub fn only<A: Argument>(rest: &[String]) -> Result<A, Usage>
    ensures { IsRead (IsAlone A.spells) (map string_bytes rest.now) result }
{
    match rest {
        [] => Err(Usage { word: 2 }),
        [word, more @ ..] => alone(word, more),
    }
}

/// The value of a word after the first word of a command, if no more words follow.
fn alone<A: Argument>(word: &String, more: &[String]) -> Result<A, Usage>
    ensures { IsRead (IsAlone A.spells) (string_bytes word.now ∷ map string_bytes more.now) result }
{
    let Some(a) = A::read(word) else {
        return Err(Usage { word: 2 });
    };
    if more.is_empty() {
        Ok(a)
    } else {
        Err(Usage { word: 3 })
    }
}
