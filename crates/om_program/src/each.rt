//! A whole run: each piece of the source is answered.

ghost use Rattle.std.specs.Prelude.{◌≡◌, ◌≢◌, ◌⊎◌, ◌≤◌, ℕ, List, IfSome, map, string_bytes};
ghost use Rattle.om_port.specs.Causes.{Rose, TakesSome};
ghost use Rattle.om_words.specs.Tasks.{HasLawfulArguments, reads};
ghost use Rattle.om_words.specs.ReadingCommands.{AreReadingCommand, wanted_ends};
ghost use Rattle.om_program.specs.Meaning.{Means, TaskMeans};
ghost use Rattle.om_reply.specs.Statuses.{IsAnswered};
ghost use Rattle.om_pieces.specs.Pieces.{HasOneCut};
ghost use Rattle.om_program.specs.Answered.{IsUpToDate};
ghost use Rattle.om_program.specs.Each.{AreForPieces, IsCourse, TakesAll};
ghost use Rattle.om_program.specs.Each.{IsEachAnswered, AreFirstWritten, IsNextCutOff};
ghost use Rattle.om_program.specs.Each.{IsUsageWritten, IsUsageCutOff};

use super::piece_answers::{answer_bytes, answer_end};
use om_pieces::Cutter;
use om_port::{Sink, Source};
use om_reply::{Status, is_answered, write_usage};
use om_words::{Reads, Task, reading_command, wanted_ends};
use std::alloc::Global;
use std::thread::Threads;

/// The greatest number of bytes that one call asks for.
const CHUNK: usize = 16_384;

/// Cuts the bytes of the source into pieces, and answers each piece as `run` answers an input of these bytes. The
/// texts are written one after the other, each as soon as its piece is complete. The words are a command that
/// reads.
///
/// The status is the greatest of the pieces' statuses by exit code. A fault or a lack of memory ends the run at
/// once. So do 2^64 - 1 readings, with [`Status::NoMemory`]. Each has at least one byte, so even a thousand million
/// a second would take 584 years.
///
/// Source and sink have to be ready, as those of `om_port` always are. So no call is made after the end of the
/// source or after a fault, and nothing empty is written.
pub fn run_each<R: Threads + Sync, S: Source, K: Sink>(
    rt: &R,
    alloc: Global,
    words: &[String],
    source: &mut S,
    sink: &mut K,
) -> Status
    requires source_ready { S.ready source.old }
    requires sink_ready { K.ready sink.old }

    // With the statuses 0, 1 and 3, the bytes that the sink has taken are the texts of the pieces of the input in
    // their order. Each text is what the words and the piece mean, and the status is the greatest of the pieces'
    // statuses.
    ensures answer { (n : ℕ) → AreForPieces (map string_bytes words.now) n → IsAnswered result
        → IfSome (S.left source.old) (λ bytes.
        IsEachAnswered (map string_bytes words.now) n bytes result (K.taken sink.old) (K.taken sink.new)) }

    // After a read fault or a lack of memory they are the texts of the first pieces, each whole.
    ensures fault { (n : ℕ) → AreForPieces (map string_bytes words.now) n
        → (result ≡ Status.ReadFault) ⊎ (result ≡ Status.NoMemory)
        → IfSome (S.left source.old) (λ bytes.
        AreFirstWritten (map string_bytes words.now) n bytes (K.taken sink.old) (K.taken sink.new)) }

    // After a read fault they are the texts of exactly those pieces that are whole in the bytes taken.
    ensures prompt { (n : ℕ) → AreForPieces (map string_bytes words.now) n → result ≡ Status.ReadFault
        → IsUpToDate (Means (map string_bytes words.now)) n (S.left source.old) (S.left source.new)
        (K.taken sink.old) (K.taken sink.new) }

    // After a write fault they are the texts of the first pieces, each whole, followed by a proper prefix of the
    // text of the next one.
    ensures cut { (n : ℕ) → AreForPieces (map string_bytes words.now) n → result ≡ Status.WriteFault
        → IfSome (S.left source.old) (λ bytes.
        IsNextCutOff (map string_bytes words.now) n bytes (K.taken sink.old) (K.taken sink.new)) }

    // Bytes have one cut into pieces.
    ensures one { (n : ℕ) (bytes : List ℕ) → 1 ≤ n → HasOneCut n bytes }

    // Exactly the words that aren't a command that reads end with their usage, or with a write fault, and leave the
    // source as it was.
    ensures usage { (AreReadingCommand (map string_bytes words.now) → ⊥)
        → (result ≡ Status.Usage) ⊎ (result ≡ Status.WriteFault) }
    ensures usage_line { (AreReadingCommand (map string_bytes words.now) → ⊥) → result ≡ Status.Usage
        → IsUsageWritten (map string_bytes words.now) (K.taken sink.old) (K.taken sink.new) }
    ensures usage_cut { (AreReadingCommand (map string_bytes words.now) → ⊥) → result ≡ Status.WriteFault
        → IsUsageCutOff (map string_bytes words.now) (K.taken sink.old) (K.taken sink.new) }
    ensures only { result ≡ Status.Usage → AreReadingCommand (map string_bytes words.now) → ⊥ }
    ensures unread { (AreReadingCommand (map string_bytes words.now) → ⊥) → source.new ≡ source.old }

    // Each fault was counted in this run.
    ensures read { result ≡ Status.ReadFault → Rose (S.faults source.old) (S.faults source.new) }
    ensures write { result ≡ Status.WriteFault → Rose (K.faults sink.old) (K.faults sink.new) }

    // No other status hides a read fault, and nothing is read after a write fault or a lack of memory: the source is
    // still ready, or all that it had left was taken.
    ensures still { result ≢ Status.ReadFault → S.ready source.new ⊎ TakesAll (S.left source.old) (S.left source.new) }

    // An answered command that reads has taken all that the source had left.
    ensures taken { IsAnswered result → AreReadingCommand (map string_bytes words.now)
        → TakesAll (S.left source.old) (S.left source.new) }

    // The bytes given by the source are a prefix of what it had left, and no count falls.
    ensures prefix { TakesSome (S.left source.old) (S.left source.new) }
    ensures source_later { S.faults source.old ≤ S.faults source.new }
    ensures sink_later { K.faults sink.old ≤ K.faults sink.new }
{
    match reading_command(words) {
        Ok(task) => answer_source(rt, alloc, &task, source, sink).unwrap_or(Status::NoMemory),
        Err(usage) => write_usage(sink, usage),
    }
}

/// Answers the pieces of a source. There is no status only if the source gave a byte at each of 2^64 - 1 readings.
fn answer_source<R: Threads + Sync, S: Source, K: Sink>(
    rt: &R,
    alloc: Global,
    task: &Task,
    source: &mut S,
    sink: &mut K,
) -> Option<Status>
    requires lawful { HasLawfulArguments task.now }
    requires reading { reads task.now ≢ Reads.Nothing }
    requires source_ready { S.ready source.old }
    requires sink_ready { K.ready sink.old }
    ensures { IsCourse (TaskMeans task.now) (wanted_ends (reads task.now)) result
        (S.left source.old) (S.left source.new) (S.ready source.new) (S.faults source.old) (S.faults source.new)
        (K.taken sink.old) (K.taken sink.new) (K.faults sink.old) (K.faults sink.new) }
{
    let mut cutter = Cutter::new(alloc, wanted_ends(task));
    let mut status = Status::Done;
    let mut chunk = [0u8; CHUNK];
    for _turn in 0..u64::MAX {
        match source.read(&mut chunk) {
            Ok(0) => return Some(answer_end(rt, alloc, task, &mut cutter, sink, status)),
            Ok(count) => {
                status = answer_bytes(rt, alloc, task, &mut cutter, &chunk[..count], sink, status);
                if !is_answered(status) {
                    return Some(status);
                }
            }
            Err(_) => return Some(Status::ReadFault),
        }
    }
    // Never reached in practice: each turn takes at least a byte.
    None
}
