//! A whole run: from the words and the source to the bytes that the sink takes.

ghost use Rattle.std.specs.Prelude.{ℕ, ◌≡◌, ◌≢◌, ◌⊎◌, ◌↔◌, ◌≤◌, IfOk, OnOk, List};
ghost use Rattle.om_port.specs.Causes.{Rose, TakesSome};
ghost use Rattle.om_words.specs.Words.{AreCommand, Names};
ghost use Rattle.om_reply.specs.Answers.{IsReply};
ghost use Rattle.om_reply.specs.Statuses.{IsAnswered};
ghost use Rattle.om_program.specs.Run.{bytes_of, ReadNothing, IsAnswer, IsCutOffAnswer};
ghost use Rattle.om_program.specs.Each.{TakesAll};
ghost use Rattle.om_words.specs.ReadingCommands.{AreReadingCommand};
ghost use Rattle.om_program.specs.Run.{IsWhole, IsCutOff, IsTaskAnswer, IsCutOffTask, IsMeantBy, TakesInput};
ghost use Rattle.om_program.specs.Completeness.{IsAnswerable, IsDoneOrNoMemory};
ghost use Rattle.om_reply.specs.Determined.{IsDetermined};
ghost use Rattle.om_program.specs.Meaning.{Means, TaskMeans, PlanMeans, ReadingMeans};
ghost use Rattle.om_program.specs.Plans.{reads_by, IsLawfulPlan, IsLawfulReading};
ghost use Rattle.om_words.specs.Tasks.{HasLawfulArguments, reads};
ghost use Rattle.om_plane.specs.SameEvidence.{EvidenceDecides};
ghost use Rattle.om_program.specs.ValidClaims.{LimitsAreFoundWithoutCertificate, VerdictsAreFoundValid};

use super::answering::answer_reading;
use super::plan::{Plan, Reading, plan_of};
use super::writing::write_and_drop;
use om_plane::make_input;
use om_port::{ReadError, Sink, Source, read_all};
use om_printing::Line;
use om_reply::{Answer, Status, write_usage};
use om_signs::{MAX_INPUT, NoMemory};
use om_words::{Reads, Task, command};
use std::alloc::Global;
use std::thread::Threads;

/// All that the program does. It carries out the command that `words` name on the bytes of `source`, writes the
/// answer to `sink`, and returns how the run ended. The answer is made whole before its first byte is written.
///
/// Source and sink have to be ready, as those of `om_port` always are. So no call is made after the end of the
/// source or after a fault, and nothing empty is written.
pub fn run<R: Threads + Sync, S: Source, K: Sink>(
    rt: &R,
    alloc: Global,
    words: &[String],
    source: &mut S,
    sink: &mut K,
) -> Status
    requires source_ready { S.ready source.old }
    requires sink_ready { K.ready sink.old }

    // With the statuses 0 to 3 the status, and the bytes taken by the sink, are what the words and the input mean.
    ensures answer { IsAnswered result
        → IsAnswer (bytes_of words.now) (S.left source.old) result (K.taken sink.old) (K.taken sink.new) }

    // Words and bytes have one answer: all that they mean has one status and one text.
    ensures determined { (bytes : List ℕ) → IsDetermined (Means (bytes_of words.now) bytes) }

    // A read fault and a lack of memory leave the sink as it was. After a write fault the sink has taken a proper
    // prefix of the meaning's text.
    ensures untouched_fault { result ≡ Status.ReadFault → sink.new ≡ sink.old }
    ensures untouched_memory { result ≡ Status.NoMemory → sink.new ≡ sink.old }
    ensures cut { result ≡ Status.WriteFault
        → IsCutOffAnswer (bytes_of words.now) (S.left source.old) (K.taken sink.old) (K.taken sink.new) }

    // A read fault comes only where the words are a command that reads.
    ensures reading { result ≡ Status.ReadFault → AreReadingCommand (bytes_of words.now) }

    // Each fault was counted in this run.
    ensures read { result ≡ Status.ReadFault → Rose (S.faults source.old) (S.faults source.new) }
    ensures write { result ≡ Status.WriteFault → Rose (K.faults sink.old) (K.faults sink.new) }

    // Words that aren't a command end with their usage, or with a write fault, and leave the source as it was. No
    // command ends with usage, whatever the source tells.
    ensures usage { (AreCommand (bytes_of words.now) → ⊥) → (result ≡ Status.Usage) ⊎ (result ≡ Status.WriteFault) }
    ensures only { result ≡ Status.Usage → AreCommand (bytes_of words.now) → ⊥ }
    ensures unread { (AreCommand (bytes_of words.now) → ⊥) → source.new ≡ source.old }

    // A command that reads nothing leaves the source as it was.
    ensures alone { (task : Task) → Names (bytes_of words.now) task → reads task ≡ Reads.Nothing
        → source.new ≡ source.old }

    // Where nothing is read, the answer is what the words and any bytes mean, whatever the source tells.
    ensures alone_answer { ReadNothing (bytes_of words.now) → IsAnswered result → (bytes : List ℕ)
        → IsWhole (Means (bytes_of words.now) bytes) result (K.taken sink.old) (K.taken sink.new) }
    ensures alone_cut { ReadNothing (bytes_of words.now) → result ≡ Status.WriteFault → (bytes : List ℕ)
        → IsCutOff (Means (bytes_of words.now) bytes) (K.taken sink.old) (K.taken sink.new) }

    // A command that reads nothing ends with status 0, with a write fault, or for want of memory.
    ensures alone_ends { (task : Task) → Names (bytes_of words.now) task → reads task ≡ Reads.Nothing
        → (result ≡ Status.Done) ⊎ ((result ≡ Status.WriteFault) ⊎ (result ≡ Status.NoMemory)) }

    // Completeness: where the words are a command, what it reads is there and meets its axioms, its answer is no
    // refusal and no limit, and no fault is counted in this run, the run ends with status 0 and has written the answer,
    // or memory was wanting. Where it reads nothing, this holds of every source.
    ensures complete { (given : IsAnswerable (bytes_of words.now) (S.left source.old))
        → (Rose (S.faults source.old) (S.faults source.new) → ⊥) → (Rose (K.faults sink.old) (K.faults sink.new) → ⊥)
        → IsDoneOrNoMemory (bytes_of words.now) given.bytes result (K.taken sink.old) (K.taken sink.new) }

    // Whatever `decide` answers, other than a limit, is a claim that `check` finds valid, with the word of the
    // verdict.
    ensures decided { VerdictsAreFoundValid }

    // A limit that `decide` answers is a claim of which `check` says that it has no certificate.
    ensures limits { LimitsAreFoundWithoutCertificate }

    // Claims on one document with the same evidence mean the same: what they say about the end of a search plays no
    // part.
    ensures evidence { EvidenceDecides }

    // Where the source tells its bytes, an answered command that reads has taken all that it had left, up to one more
    // than the limit on inputs. So `refused long` comes exactly where more bytes were taken than the limit.
    ensures taken { IsAnswered result → AreReadingCommand (bytes_of words.now)
        → TakesInput (S.left source.old) (S.left source.new) }

    // The bytes given by the source are a prefix of what it had left, and no count falls.
    ensures prefix { TakesSome (S.left source.old) (S.left source.new) }
    ensures source_later { S.faults source.old ≤ S.faults source.new }
    ensures sink_later { K.faults sink.old ≤ K.faults sink.new }

    // No other status hides a read fault: the source is still ready, or all that it had left was taken.
    ensures still { result ≢ Status.ReadFault → S.ready source.new ⊎ TakesAll (S.left source.old) (S.left source.new) }
{
    match command(words) {
        Ok(task) => carry_out(rt, alloc, task, source, sink),
        Err(usage) => write_usage(sink, usage),
    }
}

/// Carries out a task.
fn carry_out<R: Threads + Sync, S: Source, K: Sink>(
    rt: &R,
    alloc: Global,
    task: Task,
    source: &mut S,
    sink: &mut K,
) -> Status
    requires lawful { HasLawfulArguments task }
    requires source_ready { S.ready source.old }
    requires sink_ready { K.ready sink.old }
    ensures no_usage { result ≢ Status.Usage }
    ensures answer { IsAnswered result
        → IsTaskAnswer task (S.left source.old) result (K.taken sink.old) (K.taken sink.new) }
    ensures untouched_fault { result ≡ Status.ReadFault → sink.new ≡ sink.old }
    ensures untouched_memory { result ≡ Status.NoMemory → sink.new ≡ sink.old }
    ensures cut { result ≡ Status.WriteFault
        → IsCutOffTask task (S.left source.old) (K.taken sink.old) (K.taken sink.new) }
    ensures reading { result ≡ Status.ReadFault → reads task ≢ Reads.Nothing }
    ensures read { result ≡ Status.ReadFault → Rose (S.faults source.old) (S.faults source.new) }
    ensures write { result ≡ Status.WriteFault → Rose (K.faults sink.old) (K.faults sink.new) }
    ensures unread { reads task ≡ Reads.Nothing → source.new ≡ source.old }
    ensures alone_answer { reads task ≡ Reads.Nothing → IsAnswered result → (bytes : List ℕ)
        → IsWhole (TaskMeans task bytes) result (K.taken sink.old) (K.taken sink.new) }
    ensures alone_cut { reads task ≡ Reads.Nothing → result ≡ Status.WriteFault → (bytes : List ℕ)
        → IsCutOff (TaskMeans task bytes) (K.taken sink.old) (K.taken sink.new) }
    ensures taken { IsAnswered result → reads task ≢ Reads.Nothing
        → TakesInput (S.left source.old) (S.left source.new) }
    ensures prefix { TakesSome (S.left source.old) (S.left source.new) }
    ensures source_later { S.faults source.old ≤ S.faults source.new }
    ensures sink_later { K.faults sink.old ≤ K.faults sink.new }
    ensures still { result ≢ Status.ReadFault → S.ready source.new ⊎ TakesAll (S.left source.old) (S.left source.new) }
{
    match find_answer(rt, alloc, task, source) {
        Ok(answer) => write_and_drop(alloc, answer, sink),
        Err(unanswered) => unanswered.status(),
    }
}

/// Why there is no answer to write.
#[derive(Clone, Copy)]
enum Unanswered {
    ReadFault,
    NoMemory,
}

impl Unanswered {
    /// How a run ends without an answer.
    fn status(self) -> Status
        ensures one { (result ≡ Status.ReadFault) ⊎ (result ≡ Status.NoMemory) }
        ensures fault { result ≡ Status.ReadFault ↔ self ≡ Unanswered.ReadFault }
    {
        match self {
            Unanswered::ReadFault => Status::ReadFault,
            Unanswered::NoMemory => Status::NoMemory,
        }
    }
}

impl From<NoMemory> for Unanswered {
    ghost use Rattle.om_program.specs.declared.running.Unanswered.TheVariants as unanswered;

    ghost from_gives = { λ _ e. e ≡ unanswered.NoMemory };

    fn from(_: NoMemory) -> Self {
        Unanswered::NoMemory
    }
}

/// The answer to a task. The input is read only if the task reads one.
fn find_answer<R: Threads + Sync, S: Source>(
    rt: &R,
    alloc: Global,
    task: Task,
    source: &mut S,
) -> Result<Answer, Unanswered>
    requires lawful { HasLawfulArguments task }
    requires ready { S.ready source.old }
    ensures meant { IfOk result (IsMeantBy (TaskMeans task) (S.left source.old)) }
    ensures alone { reads task ≡ Reads.Nothing
        → IfOk result (λ answer. (bytes : List ℕ) → TaskMeans task bytes answer) }
    ensures reply { IfOk result IsReply }
    ensures reading { result ≡ Err Unanswered.ReadFault → reads task ≢ Reads.Nothing }
    ensures read { result ≡ Err Unanswered.ReadFault → Rose (S.faults source.old) (S.faults source.new) }
    ensures unread { reads task ≡ Reads.Nothing → source.new ≡ source.old }
    ensures taken { OnOk result (reads task ≢ Reads.Nothing → TakesInput (S.left source.old) (S.left source.new)) }
    ensures prefix { TakesSome (S.left source.old) (S.left source.new) }
    ensures later { S.faults source.old ≤ S.faults source.new }
    ensures still { result ≢ Err Unanswered.ReadFault
        → S.ready source.new ⊎ TakesAll (S.left source.old) (S.left source.new) }
{
    follow(rt, alloc, plan_of(task), source)
}

/// The answer that a plan leads to.
fn follow<R: Threads + Sync, S: Source>(
    rt: &R,
    alloc: Global,
    plan: Plan,
    source: &mut S,
) -> Result<Answer, Unanswered>
    requires lawful { IsLawfulPlan plan }
    requires ready { S.ready source.old }
    ensures meant { IfOk result (IsMeantBy (PlanMeans plan) (S.left source.old)) }
    ensures alone { reads_by plan ≡ Reads.Nothing
        → IfOk result (λ answer. (bytes : List ℕ) → PlanMeans plan bytes answer) }
    ensures reply { IfOk result IsReply }
    ensures reading { result ≡ Err Unanswered.ReadFault → reads_by plan ≢ Reads.Nothing }
    ensures read { result ≡ Err Unanswered.ReadFault → Rose (S.faults source.old) (S.faults source.new) }
    ensures unread { reads_by plan ≡ Reads.Nothing → source.new ≡ source.old }
    ensures taken { OnOk result (reads_by plan ≢ Reads.Nothing
        → TakesInput (S.left source.old) (S.left source.new)) }
    ensures prefix { TakesSome (S.left source.old) (S.left source.new) }
    ensures later { S.faults source.old ≤ S.faults source.new }
    ensures still { result ≢ Err Unanswered.ReadFault
        → S.ready source.new ⊎ TakesAll (S.left source.old) (S.left source.new) }
{
    match plan {
        Plan::Make { seed, count } => Ok(make_input(rt, alloc, seed, count)?),
        Plan::Read(what) => read_and_answer(rt, alloc, what, source),
    }
}

/// Reads the input, and finds the answer to the task on it.
fn read_and_answer<R: Threads + Sync, S: Source>(
    rt: &R,
    alloc: Global,
    what: Reading,
    source: &mut S,
) -> Result<Answer, Unanswered>
    requires lawful { IsLawfulReading what }
    requires ready { S.ready source.old }
    ensures meant { IfOk result (IsMeantBy (ReadingMeans what) (S.left source.old)) }
    ensures reply { IfOk result IsReply }
    ensures read { result ≡ Err Unanswered.ReadFault → Rose (S.faults source.old) (S.faults source.new) }
    ensures taken { OnOk result (TakesInput (S.left source.old) (S.left source.new)) }
    ensures prefix { TakesSome (S.left source.old) (S.left source.new) }
    ensures later { S.faults source.old ≤ S.faults source.new }
    ensures still { result ≢ Err Unanswered.ReadFault
        → S.ready source.new ⊎ TakesAll (S.left source.old) (S.left source.new) }
{
    match read_all(alloc, source, MAX_INPUT) {
        Ok(bytes) => Ok(answer_reading(rt, alloc, what, bytes.as_slice())?),
        Err(ReadError::TooLong) => Ok(Answer::Line(Line::RefusedLong)),
        Err(ReadError::ReadFault) => Err(Unanswered::ReadFault),
        Err(ReadError::Memory) => Err(Unanswered::NoMemory),
    }
}
