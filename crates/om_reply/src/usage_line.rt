//! The line for words that aren't a command.

ghost use Rattle.std.specs.Prelude.{◌≡◌, ◌≤◌, ◌⊎◌, ◌+◌, ◌++◌, take, length};
ghost use Rattle.std.specs.Io.KnownBytes.{Appends};
ghost use Rattle.om_port.specs.Causes.{Rose};
ghost use Rattle.om_reply.specs.Statuses.{IsAnswered};
ghost use Rattle.om_reply.specs.Written.{IsFront};
ghost use Rattle.om_printing.specs.Texts.{line_text};

use super::status::Status;
use super::write_text::write_text;
use itoa::Buffer;
use om_port::Sink;
use om_printing::{Line, Usage};

/// The length of the longest line: `usage `, a number of 32 bits, and the line feed.
const ROOM: usize = 17;

/// Writes the line `usage K` from an array on the stack, so that a run whose words aren't a command allocates no
/// memory.
pub fn write_usage<K: Sink>(sink: &mut K, usage: Usage) -> Status
    requires { K.ready sink.old }
    ensures whole { IsAnswered result → (result ≡ Status.Usage)
        × Appends (K.taken sink.old) (K.taken sink.new) (line_text (Line.Usage usage.word)) }
    ensures cut { result ≡ Status.WriteFault
        → IsFront (K.taken sink.old) (K.taken sink.new) (line_text (Line.Usage usage.word)) }
    ensures fault { result ≡ Status.WriteFault → Rose (K.faults sink.old) (K.faults sink.new) }
    ensures no_other { (result ≡ Status.Usage) ⊎ (result ≡ Status.WriteFault) }
    ensures later { K.faults sink.old ≤ K.faults sink.new }
{
    let mut text = [0u8; ROOM];
    let len = put_usage(&mut text, usage);
    write_text(sink, &text[..len], Status::Usage)
}

/// Writes the line to the front of the array, and returns its length.
fn put_usage(text: &mut [u8], usage: Usage) -> usize
    requires { length text.old ≡ ROOM }
    ensures front { take result text.new ≡ line_text (Line.Usage usage.word) }
    ensures within { result ≤ ROOM }
{
    let mut buffer = Buffer::new();
    let head = put(text, 0, b"usage ");
    let digits = put(text, head, buffer.format(usage.word).as_bytes());
    put(text, digits, b"\n")
}

/// Writes bytes after the first `at` ones, and returns the place where they end.
fn put(text: &mut [u8], at: usize, bytes: &[u8]) -> usize
    requires { at + length bytes.now ≤ length text.old }
    ensures end { result ≡ at + length bytes.now }
    ensures front { take result text.new ≡ take at text.old ++ bytes.now }
{
    let end = at + bytes.len();
    text[at..end].copy_from_slice(bytes);
    end
}
