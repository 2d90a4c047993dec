//! Writes an answer whole.

ghost use Rattle.std.specs.Prelude.{◌≡◌, ◌≢◌, ◌≤◌};
ghost use Rattle.std.specs.Io.KnownBytes.{Appends};
ghost use Rattle.om_port.specs.Causes.{Rose};
ghost use Rattle.om_reply.specs.Answers.{IsReply, status_of, text_of};
ghost use Rattle.om_reply.specs.Statuses.{IsAnswered};
ghost use Rattle.om_reply.specs.Written.{IsFront};

use super::answer::Answer;
use super::printing::print_answer;
use super::status::Status;
use super::write_text::write_text;
use om_port::Sink;
use std::alloc::Global;

/// Makes the text of an answer, and writes it. This is the one place where answers to commands are written.
pub fn write_answer<K: Sink>(alloc: Global, answer: &Answer, sink: &mut K) -> Status
    requires reply { IsReply answer.now }
    requires ready { K.ready sink.old }
    ensures whole { IsAnswered result → (result ≡ status_of answer.now)
        × Appends (K.taken sink.old) (K.taken sink.new) (text_of answer.now) }
    ensures cut { result ≡ Status.WriteFault → IsFront (K.taken sink.old) (K.taken sink.new) (text_of answer.now) }
    ensures untouched { result ≡ Status.NoMemory → sink.new ≡ sink.old }
    ensures fault { result ≡ Status.WriteFault → Rose (K.faults sink.old) (K.faults sink.new) }
    ensures no_read { result ≢ Status.ReadFault }
    ensures no_usage { result ≢ Status.Usage }
    ensures again { IsAnswered result → K.ready sink.new }
    ensures later { K.faults sink.old ≤ K.faults sink.new }
{
    match print_answer(alloc, answer) {
        Ok(text) => write_text(sink, text.as_slice(), answer.status()),
        Err(_) => Status::NoMemory,
    }
}
