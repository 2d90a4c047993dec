//! Reading a source to its end, and writing all of some bytes.

ghost use Rattle.std.specs.Prelude.{◌≡◌, ◌≢◌, ◌⊎◌, ◌≤◌, ◌<◌, ◌+◌, IfOk, IfErr, OnOk, OnErr, vec_len, length, take};
ghost use Rattle.std.specs.Io.KnownBytes.{Consumes, Appends, IsAtEnd};
ghost use Rattle.om_port.specs.Causes.{Rose, TakesExactly, TakesAtMost, TakesSome};

use super::read_error::ReadError;
use super::sink::Sink;
use super::source::Source;
use super::write_fault::WriteFault;
use om_signs::MAX_INPUT;
use std::alloc::Global;

/// The greatest number of bytes that one call asks for.
const PIECE: usize = 4_096;

/// All bytes of a source up to its end, at most `limit`. The limit is at most [`MAX_INPUT`].
///
/// [`ReadError::ReadFault`] comes only if the source's count of faults rose in this call. [`ReadError::TooLong`]
/// comes exactly if `limit + 1` bytes were taken, and no further byte is taken then. [`ReadError::Memory`] comes
/// only if memory runs out. After each error the source has given a prefix of the bytes that it had left. It is still
/// ready after [`ReadError::TooLong`] and [`ReadError::Memory`]. After its end or a fault it isn't read again.
pub fn read_all<S: Source>(
    alloc: Global,
    source: &mut S,
    limit: usize,
) -> Result<Vec<u8>, ReadError>
    requires limit { limit ≤ MAX_INPUT }
    requires ready { S.ready source.old }
    ensures ok { IfOk result (λ bytes. Consumes (S.left source.old) (S.left source.new) bytes.items) }
    ensures end { OnOk result (IsAtEnd (S.left source.new)) }
    ensures short { IfOk result (λ bytes. vec_len bytes ≤ limit) }
    ensures fault { result ≡ Err ReadError.ReadFault → Rose (S.faults source.old) (S.faults source.new) }
    ensures long { result ≡ Err ReadError.TooLong → TakesExactly (limit + 1) (S.left source.old) (S.left source.new) }
    ensures few { result ≢ Err ReadError.TooLong → TakesAtMost limit (S.left source.old) (S.left source.new) }
    ensures prefix { TakesSome (S.left source.old) (S.left source.new) }
    ensures later { S.faults source.old ≤ S.faults source.new }
    ensures again { (result ≡ Err ReadError.TooLong) ⊎ (result ≡ Err ReadError.Memory) → S.ready source.new }
{
    let mut bytes = Vec::new(alloc);
    let mut buf = [0u8; PIECE];
    loop {
        let room = limit + 1 - bytes.len();
        let piece = room.min(PIECE);
        match source.read(&mut buf[..piece]) {
            Err(_) => return Err(ReadError::ReadFault),
            Ok(0) => return Ok(bytes),
            Ok(count) => {
                if count == room {
                    return Err(ReadError::TooLong);
                }
                if bytes.extend_from_slice(&buf[..count]).is_err() {
                    return Err(ReadError::Memory);
                }
            }
        }
    }
}

/// Writes all of the bytes, in order.
///
/// [`WriteFault`] comes only if the sink's count of faults rose in this call. Exactly the first `written` bytes
/// were taken then, and `written` is less than their number. Each write has at least one byte, and none comes after
/// a fault.
pub fn write_all<K: Sink>(sink: &mut K, bytes: &[u8]) -> Result<(), WriteFault>
    requires { K.ready sink.old }
    ensures ok { OnOk result (Appends (K.taken sink.old) (K.taken sink.new) bytes.now) }
    ensures err { IfErr result (λ e. Appends (K.taken sink.old) (K.taken sink.new) (take e.written bytes.now)) }
    ensures part { IfErr result (λ e. e.written < length bytes.now) }
    ensures fault { OnErr result (Rose (K.faults sink.old) (K.faults sink.new)) }
    ensures again { OnOk result (K.ready sink.new) }
    ensures later { K.faults sink.old ≤ K.faults sink.new }
{
    let mut written = 0;
    while written < bytes.len() {
        match sink.write(&bytes[written..]) {
            Ok(count) => written += count,
            Err(_) => return Err(WriteFault { written }),
        }
    }
    Ok(())
}
