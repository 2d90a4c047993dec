//! The words of a command, and the task that they name.

ghost use Rattle.std.specs.Prelude.{◌≡◌, ◌↔◌, ◌∷◌, IfErr, IfOk, map, string_bytes};
ghost use Rattle.om_words.specs.Tasks.{HasLawfulArguments};
ghost use Rattle.om_words.specs.Words.{Names, AreNamed, IsUsage};

use super::argument::only;
use super::arguments::{bare, elements};
use super::colouring::colours_and_element;
use super::leading::signed_elements;
use super::numbered::{budgets, lines, seed_and_count};
use super::task::Task;
use super::triple::triple;
use super::verb::{Verb, named_verb};
use om_printing::Usage;

/// The task that the words name. `Usage` comes exactly if they name none, and says which word is at fault. The call
/// allocates no memory.
///
/// `docs/FORMATS.md`, "Words and texts", says which words name which task, and `specs/Words.antt` defines it
/// (`Names`).
pub fn command(words: &[String]) -> Result<Task, Usage>
    ensures task { (task : Task) → (result ≡ Ok task) ↔ Names (map string_bytes words.now) task }

    // The arguments of the task lie within the limits.
    ensures lawful { IfOk result HasLawfulArguments }

    // The word in the error is the word at fault.
    ensures usage { IfErr result (λ usage. IsUsage (map string_bytes words.now) usage.word) }
{
    match words {
        [] => Err(Usage { word: 1 }),
        [first, rest @ ..] => after_first(first, rest),
    }
}

/// The task that the first word and the words after it name.
fn after_first(first: &String, rest: &[String]) -> Result<Task, Usage>
    ensures task { (task : Task) → (result ≡ Ok task)
        ↔ Names (string_bytes first.now ∷ map string_bytes rest.now) task }
    ensures usage { IfErr result (λ usage. IsUsage (string_bytes first.now ∷ map string_bytes rest.now) usage.word) }
{
    match named_verb(first) {
        Some(verb) => after_verb(verb, rest),
        None => Err(Usage { word: 1 }),
    }
}

/// The task that a verb and the words after it name.
fn after_verb(verb: Verb, rest: &[String]) -> Result<Task, Usage>
    ensures { AreNamed verb (map string_bytes rest.now) result }
{
    match verb {
        Verb::Accept => bare(Task::Accept, rest),
        Verb::Member => only(rest).map(Task::Member),
        Verb::Convert => only(rest).map(Task::Convert),
        Verb::Dual => bare(Task::Dual, rest),
        Verb::Delete => only(rest).map(Task::Delete),
        Verb::Contract => only(rest).map(Task::Contract),
        Verb::Reorient => elements(rest).map(Task::Reorient),
        Verb::Wiring => bare(Task::Wiring, rest),
        Verb::Mutations => bare(Task::Mutations, rest),
        Verb::Flip => {
            let (a, b, c) = triple(rest)?;
            Ok(Task::Flip(a, b, c))
        }
        Verb::Extend => Ok(Task::Extend {
            first: lines(rest)?,
        }),
        Verb::Paint => colours_and_element(rest).map(Task::Paint),
        Verb::Hull => bare(Task::Hull, rest),
        Verb::Lexext => signed_elements(rest).map(Task::Lexext),
        Verb::Threeterm => bare(Task::Threeterm, rest),
        Verb::Upgrade => bare(Task::Upgrade, rest),
        Verb::Decide => budgets(rest).map(Task::Decide),
        Verb::Check => bare(Task::Check, rest),
        Verb::Make => {
            let (seed, count) = seed_and_count(rest)?;
            Ok(Task::Make { seed, count })
        }
    }
}
