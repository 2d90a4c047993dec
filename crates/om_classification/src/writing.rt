//! Writes a text whole.

ghost use Rattle.std.specs.Prelude.{◌≡◌, ◌⊎◌, ◌≤◌};
ghost use Rattle.std.specs.Io.KnownBytes.{Appends};
ghost use Rattle.om_port.specs.Causes.{Rose};
ghost use Rattle.om_reply.specs.Statuses.{IsReplied};
ghost use Rattle.om_reply.specs.Written.{IsFront};

use om_port::{Sink, write_all};
use om_reply::Status;

/// Writes a text, and ends with this status. If only a part was taken, it ends with a write fault.
pub fn write_text<K: Sink>(sink: &mut K, text: &[u8], status: Status) -> Status
    requires status { IsReplied status }
    requires ready { K.ready sink.old }
    ensures either { ((result ≡ status) × Appends (K.taken sink.old) (K.taken sink.new) text.now)
        ⊎ ((result ≡ Status.WriteFault) × IsFront (K.taken sink.old) (K.taken sink.new) text.now) }
    ensures fault { result ≡ Status.WriteFault → Rose (K.faults sink.old) (K.faults sink.new) }
    ensures again { result ≡ Status.Done → K.ready sink.new }
    ensures later { K.faults sink.old ≤ K.faults sink.new }
{
    match write_all(sink, text) {
        Ok(()) => status,
        Err(_) => Status::WriteFault,
    }
}
