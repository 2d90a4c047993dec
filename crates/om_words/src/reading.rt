//! Commands that read an input.

ghost use Rattle.std.specs.Prelude.{◌≡◌, ◌≢◌, IfOk, IfErr, map, string_bytes};
ghost use Rattle.om_words.specs.ReadingCommands.{AreReadingCommand, IsReadingUsage, wanted_ends};
ghost use Rattle.om_words.specs.Tasks.{HasLawfulArguments, reads};
ghost use Rattle.om_words.specs.Words.{Names};

use super::reads::Reads;
use super::task::Task;
use super::words::command;
use om_printing::Usage;

/// The task of a command that reads. If a command reads nothing, its first word is at fault.
pub fn reading_command(words: &[String]) -> Result<Task, Usage>
    ensures task { IfOk result (λ task. Names (map string_bytes words.now) task × (reads task ≢ Reads.Nothing)) }
    ensures one { IfOk result (λ task. (other : Task) → Names (map string_bytes words.now) other → other ≡ task) }
    ensures lawful { IfOk result HasLawfulArguments }
    ensures usage { IfErr result (λ usage. IsReadingUsage (map string_bytes words.now) usage.word) }
    ensures none { IfErr result (λ usage. AreReadingCommand (map string_bytes words.now) → ⊥) }
{
    match command(words) {
        Ok(task) => match task.reads() {
            Reads::Document => Ok(task),
            Reads::Claim => Ok(task),
            Reads::Nothing => Err(Usage { word: 1 }),
        },
        Err(usage) => Err(usage),
    }
}

/// How many `end` lines close a piece that the task reads.
pub fn wanted_ends(task: &Task) -> u8
    ensures { result ≡ wanted_ends (reads task.now) }
{
    match task.reads() {
        Reads::Claim => 2,
        Reads::Document | Reads::Nothing => 1,
    }
}
