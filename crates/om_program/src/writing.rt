//! Writes an answer that nothing needs afterwards.

ghost use Rattle.std.specs.Prelude.{◌≡◌, ◌≢◌, ◌≤◌};
ghost use Rattle.std.specs.Io.KnownBytes.{Appends};
ghost use Rattle.om_port.specs.Causes.{Rose};
ghost use Rattle.om_reply.specs.Answers.{IsReply, status_of, text_of};
ghost use Rattle.om_reply.specs.Statuses.{IsAnswered};
ghost use Rattle.om_reply.specs.Written.{IsFront};

use om_port::Sink;
use om_reply::{Answer, Status, write_answer};
use std::alloc::Global;

/// Writes an answer as [`write_answer`] does, and drops it.
pub fn write_and_drop<K: Sink>(alloc: Global, answer: Answer, sink: &mut K) -> Status
    requires reply { IsReply answer }
    requires ready { K.ready sink.old }
    ensures whole { IsAnswered result → (result ≡ status_of answer)
        × Appends (K.taken sink.old) (K.taken sink.new) (text_of answer) }
    ensures cut { result ≡ Status.WriteFault → IsFront (K.taken sink.old) (K.taken sink.new) (text_of answer) }
    ensures untouched { result ≡ Status.NoMemory → sink.new ≡ sink.old }
    ensures fault { result ≡ Status.WriteFault → Rose (K.faults sink.old) (K.faults sink.new) }
    ensures no_read { result ≢ Status.ReadFault }
    ensures no_usage { result ≢ Status.Usage }
    ensures again { IsAnswered result → K.ready sink.new }
    ensures later { K.faults sink.old ≤ K.faults sink.new }
{
    write_answer(alloc, &answer, sink)
}
