//! The words of commands: the tasks that they name, and the words at fault.

use super::helpers::words_of;
use super::runs::RUNS;
use om_paint::Colour;
use om_signs::{MAX_DRAWN, Sign};
use om_text::Kind;
use om_words::{Colouring, Leading, Reads, Task, Usage, command};
use std::alloc::Global;

/// The exit code of words that aren't a command.
const USAGE: u8 = 2;

/// Words that aren't a command, and the one at fault.
const FAULTS: [(&str, u32); 20] = [
    ("", 1),
    ("Accept", 1),
    ("accept more", 2),
    ("member", 2),
    ("member +x", 2),
    ("member + +", 3),
    ("convert wiring", 2),
    ("delete 0", 2),
    ("contract 21", 2),
    ("reorient 2 1", 3),
    ("flip 1 2", 4),
    ("flip 1 3 2", 4),
    ("extend --first=0", 2),
    ("decide --box=1 --box=2", 3),
    ("paint RGBX 1", 2),
    ("paint RG 1 1", 4),
    ("lexext +1 -1", 3),
    ("make", 2),
    ("make 4294967296", 2),
    ("make 1 --count=2", 3),
];

/// Words of commands, with arguments at their limits or with the defaults. [`RUNS`] has words of each command.
const COMMANDS: [&str; 12] = [
    "member +-0",
    "convert circuits",
    "delete 20",
    "contract 1",
    "reorient 1 2 20",
    "flip 1 2 3",
    "extend",
    "paint RGBW 4",
    "lexext +3 -1",
    "decide",
    "check",
    "make 7",
];

/// The task that the words of a line name, or the word at fault, which is 0 if memory runs out.
fn read(alloc: Global, line: &str) -> Result<Task, Usage> {
    match words_of(alloc, line) {
        Ok(words) => command(words.as_slice()),
        Err(_) => Err(Usage { word: 0 }),
    }
}

/// What the task that the words of a line name reads, if they name one.
fn read_by(alloc: Global, line: &str) -> &'static str {
    match read(alloc, line) {
        Ok(task) => match task.reads() {
            Reads::Document => "a document",
            Reads::Claim => "a claim",
            Reads::Nothing => "nothing",
        },
        Err(_) => "",
    }
}

#[test]
fn words_at_fault(rt: HostRuntime) {
    assert!(rt; command(&[]).err() == Some(Usage { word: 1 }));
    for (line, word) in FAULTS.iter() {
        assert!(rt; read(rt.alloc(), line).err() == Some(Usage { word: *word }));
    }
}

/// What the command of a line reads.
fn expected(line: &str) -> &'static str {
    if line.starts_with("check") {
        "a claim"
    } else if line.starts_with("make") {
        "nothing"
    } else {
        "a document"
    }
}

#[test]
fn what_tasks_read(rt: HostRuntime) {
    for line in COMMANDS.iter() {
        assert!(rt; read_by(rt.alloc(), line) == expected(line), "{line}");
    }
    for (line, _, code, _) in RUNS.iter() {
        assert!(rt;
            *code == USAGE || read_by(rt.alloc(), line) == expected(line),
            "{line}"
        );
    }
}

/// Whether there are three colours, the last of them black, and the element 2; the places after the last colour are
/// white.
fn is_painted(given: Colouring) -> bool {
    given.count == 3
        && given.e == 2
        && given.colours[2] == Colour::Black
        && given.colours[3] == Colour::White
}

/// Whether there are two signed elements, the second of them -1.
fn is_extended(leading: Leading) -> bool {
    leading.count == 2 && leading.list[1].element == 1 && leading.list[1].sign == Sign::Minus
}

/// The line of [`ARGUMENTS`] that names a task, if one does.
fn line_of(task: Task) -> &'static str {
    match task {
        Task::Delete(20) => "delete 20",
        Task::Convert(Kind::Cocircuits) => "convert cocircuits",
        Task::Reorient(5) => "reorient 1 3",
        Task::Flip(1, 2, 20) => "flip 1 2 20",
        Task::Extend { first: 100_000 } => "extend",
        Task::Make { seed: 7, count } if count == MAX_DRAWN => "make 7",
        Task::Paint(given) if is_painted(given) => "paint RGB 2",
        Task::Lexext(leading) if is_extended(leading) => "lexext +3 -1",
        // the steps are those without an option
        Task::Decide(budgets)
            if budgets.box_size == 2 && budgets.steps == 2_000_000 && budgets.pivots == 9 => {
            "decide --pivots=9 --box=2"
        }
        _ => "",
    }
}

/// Words of commands with arguments, or with the defaults.
const ARGUMENTS: [&str; 9] = [
    "delete 20",
    "convert cocircuits",
    "reorient 1 3",
    "flip 1 2 20",
    "extend",
    "make 7",
    "paint RGB 2",
    "lexext +3 -1",
    "decide --pivots=9 --box=2",
];

#[test]
fn arguments(rt: HostRuntime) {
    for line in ARGUMENTS.iter() {
        let named = match read(rt.alloc(), line) {
            Ok(task) => line_of(task),
            Err(_) => "",
        };
        assert!(rt; named == *line);
    }
}
