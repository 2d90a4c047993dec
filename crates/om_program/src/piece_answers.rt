//! Answers the complete pieces, one after the other.

ghost use Rattle.std.specs.Prelude.{◌≡◌, ◌≢◌, ◌≤◌, ◌++◌, ◌∷◌, ℕ, List, [], IfOk, option_map};
ghost use Rattle.om_port.specs.Causes.{Rose};
ghost use Rattle.om_words.specs.Tasks.{HasLawfulArguments, reads};
ghost use Rattle.om_reply.specs.Answers.{IsReply};
ghost use Rattle.om_program.specs.Meaning.{TaskMeans};
ghost use Rattle.om_program.specs.Run.{IsWhole, IsCutOff};
ghost use Rattle.om_reply.specs.Statuses.{IsAnswered, IsReplied};
ghost use Rattle.om_pieces.specs.Making.{completed, made, option_list};
ghost use Rattle.om_program.specs.Answered.{AreAnswered, GoesOn, Stops, Breaks};

use super::answering::answer_input;
use super::writing::write_and_drop;
use om_pieces::Cutter;
use om_port::Sink;
use om_printing::Line;
use om_reply::{Answer, Status, greater, is_answered};
use om_signs::{MAX_INPUT, NoMemory};
use om_words::{Reads, Task};
use std::alloc::Global;
use std::thread::Threads;

/// Answers the pieces that these bytes complete.
pub fn answer_bytes<R: Threads + Sync, K: Sink>(
    rt: &R,
    alloc: Global,
    task: &Task,
    cutter: &mut Cutter,
    bytes: &[u8],
    sink: &mut K,
    before: Status,
) -> Status
    requires lawful { HasLawfulArguments task.now }
    requires reading { reads task.now ≢ Reads.Nothing }
    requires ready { K.ready sink.old }
    requires before { IsReplied before }
    ensures answer { IsAnswered result → (rest : List ℕ) →
        GoesOn (TaskMeans task.now) (made cutter.old (bytes.now ++ rest)) (made cutter.new rest)
        before result (K.taken sink.old) (K.taken sink.new) }
    ensures memory { result ≡ Status.NoMemory → (rest : List ℕ) →
        Stops (TaskMeans task.now) (made cutter.old (bytes.now ++ rest)) (K.taken sink.old) (K.taken sink.new) }
    ensures cut { result ≡ Status.WriteFault → (rest : List ℕ) →
        Breaks (TaskMeans task.now) (made cutter.old (bytes.now ++ rest)) (K.taken sink.old) (K.taken sink.new) }
    ensures no_usage { result ≢ Status.Usage }
    ensures no_read { result ≢ Status.ReadFault }
    ensures write { result ≡ Status.WriteFault → Rose (K.faults sink.old) (K.faults sink.new) }
    ensures again { IsAnswered result → K.ready sink.new }
    ensures later { K.faults sink.old ≤ K.faults sink.new }
    ensures prompt { IsAnswered result → (rest : List ℕ) →
        GoesOn (TaskMeans task.now) (completed cutter.old (bytes.now ++ rest)) (completed cutter.new rest)
        before result (K.taken sink.old) (K.taken sink.new) }
{
    let mut status = before;
    for byte in bytes {
        status = answer_byte(rt, alloc, task, cutter, *byte, sink, status);
        if !is_answered(status) {
            return status;
        }
    }
    status
}

/// Answers the piece that this byte completes, if there is one.
fn answer_byte<R: Threads + Sync, K: Sink>(
    rt: &R,
    alloc: Global,
    task: &Task,
    cutter: &mut Cutter,
    byte: u8,
    sink: &mut K,
    before: Status,
) -> Status
    requires lawful { HasLawfulArguments task.now }
    requires reading { reads task.now ≢ Reads.Nothing }
    requires ready { K.ready sink.old }
    requires before { IsReplied before }
    ensures answer { IsAnswered result → (rest : List ℕ) →
        GoesOn (TaskMeans task.now) (made cutter.old (byte ∷ rest)) (made cutter.new rest)
        before result (K.taken sink.old) (K.taken sink.new) }
    ensures memory { result ≡ Status.NoMemory → (rest : List ℕ) →
        Stops (TaskMeans task.now) (made cutter.old (byte ∷ rest)) (K.taken sink.old) (K.taken sink.new) }
    ensures cut { result ≡ Status.WriteFault → (rest : List ℕ) →
        Breaks (TaskMeans task.now) (made cutter.old (byte ∷ rest)) (K.taken sink.old) (K.taken sink.new) }
    ensures no_usage { result ≢ Status.Usage }
    ensures no_read { result ≢ Status.ReadFault }
    ensures write { result ≡ Status.WriteFault → Rose (K.faults sink.old) (K.faults sink.new) }
    ensures again { IsAnswered result → K.ready sink.new }
    ensures later { K.faults sink.old ≤ K.faults sink.new }
    ensures prompt { IsAnswered result → (rest : List ℕ) →
        GoesOn (TaskMeans task.now) (completed cutter.old (byte ∷ rest)) (completed cutter.new rest)
        before result (K.taken sink.old) (K.taken sink.new) }
{
    match cutter.feed(alloc, byte) {
        Ok(piece) => answer_next(rt, alloc, task, piece, sink, before),
        Err(_) => Status::NoMemory,
    }
}

/// Answers the pieces that the end of the input completes.
pub fn answer_end<R: Threads + Sync, K: Sink>(
    rt: &R,
    alloc: Global,
    task: &Task,
    cutter: &mut Cutter,
    sink: &mut K,
    before: Status,
) -> Status
    requires lawful { HasLawfulArguments task.now }
    requires reading { reads task.now ≢ Reads.Nothing }
    requires ready { K.ready sink.old }
    requires before { IsReplied before }
    ensures answer { IsAnswered result →
        AreAnswered (TaskMeans task.now) (made cutter.old []) before result (K.taken sink.old) (K.taken sink.new) }
    ensures memory { result ≡ Status.NoMemory →
        Stops (TaskMeans task.now) (made cutter.old []) (K.taken sink.old) (K.taken sink.new) }
    ensures cut { result ≡ Status.WriteFault →
        Breaks (TaskMeans task.now) (made cutter.old []) (K.taken sink.old) (K.taken sink.new) }
    ensures no_usage { result ≢ Status.Usage }
    ensures no_read { result ≢ Status.ReadFault }
    ensures write { result ≡ Status.WriteFault → Rose (K.faults sink.old) (K.faults sink.new) }
    ensures later { K.faults sink.old ≤ K.faults sink.new }
{
    match cutter.end(alloc) {
        Ok(piece) => {
            let status = answer_next(rt, alloc, task, piece, sink, before);
            if is_answered(status) {
                answer_next(rt, alloc, task, cutter.rest(alloc), sink, status)
            } else {
                status
            }
        }
        Err(_) => Status::NoMemory,
    }
}

/// Answers the next piece, if there is one. The status is the greater of its own status and the one before it.
fn answer_next<R: Threads + Sync, K: Sink>(
    rt: &R,
    alloc: Global,
    task: &Task,
    piece: Option<Vec<u8>>,
    sink: &mut K,
    before: Status,
) -> Status
    requires lawful { HasLawfulArguments task.now }
    requires reading { reads task.now ≢ Reads.Nothing }
    requires ready { K.ready sink.old }
    requires before { IsReplied before }
    ensures answer { IsAnswered result →
        AreAnswered (TaskMeans task.now) (option_list (option_map (λ p. p.items) piece))
        before result (K.taken sink.old) (K.taken sink.new) }
    ensures untouched { result ≡ Status.NoMemory → sink.new ≡ sink.old }
    ensures cut { result ≡ Status.WriteFault →
        Breaks (TaskMeans task.now) (option_list (option_map (λ p. p.items) piece))
        (K.taken sink.old) (K.taken sink.new) }
    ensures no_usage { result ≢ Status.Usage }
    ensures no_read { result ≢ Status.ReadFault }
    ensures write { result ≡ Status.WriteFault → Rose (K.faults sink.old) (K.faults sink.new) }
    ensures again { IsAnswered result → K.ready sink.new }
    ensures later { K.faults sink.old ≤ K.faults sink.new }
{
    match piece {
        Some(piece) => greater(
            before,
            answer_piece(rt, alloc, task, piece.as_slice(), sink),
        ),
        None => before,
    }
}

/// Answers a piece, given its first bytes.
fn answer_piece<R: Threads + Sync, K: Sink>(
    rt: &R,
    alloc: Global,
    task: &Task,
    piece: &[u8],
    sink: &mut K,
) -> Status
    requires lawful { HasLawfulArguments task.now }
    requires reading { reads task.now ≢ Reads.Nothing }
    requires ready { K.ready sink.old }
    ensures answer { IsAnswered result →
        IsWhole (TaskMeans task.now piece.now) result (K.taken sink.old) (K.taken sink.new) }
    ensures untouched { result ≡ Status.NoMemory → sink.new ≡ sink.old }
    ensures cut { result ≡ Status.WriteFault →
        IsCutOff (TaskMeans task.now piece.now) (K.taken sink.old) (K.taken sink.new) }
    ensures no_usage { result ≢ Status.Usage }
    ensures no_read { result ≢ Status.ReadFault }
    ensures write { result ≡ Status.WriteFault → Rose (K.faults sink.old) (K.faults sink.new) }
    ensures again { IsAnswered result → K.ready sink.new }
    ensures later { K.faults sink.old ≤ K.faults sink.new }
{
    match find_answer(rt, alloc, task, piece) {
        Ok(answer) => write_and_drop(alloc, answer, sink),
        Err(_) => Status::NoMemory,
    }
}

/// The answer to a piece, given its first bytes.
fn find_answer<R: Threads + Sync>(
    rt: &R,
    alloc: Global,
    task: &Task,
    piece: &[u8],
) -> Result<Answer, NoMemory>
    requires lawful { HasLawfulArguments task.now }
    requires reading { reads task.now ≢ Reads.Nothing }
    ensures meant { IfOk result (TaskMeans task.now piece.now) }
    ensures reply { IfOk result IsReply }
{
    if piece.len() <= MAX_INPUT {
        answer_input(rt, alloc, *task, piece)
    } else {
        Ok(Answer::Line(Line::RefusedLong))
    }
}
