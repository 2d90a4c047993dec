//! Failures at each call and at each byte, against the results expected of a reader or a writer. Readers of std,
//! and writers that take all or fail, are tested by the rows, which read and write through them.

use om_port::{
    CountSink, MemSink, MemSource, ReadError, Source, StdSink, SureSource, WriteFault, read_all,
    write_all,
};
use om_signs::{List, MAX_INPUT, NoMemory};
use std::alloc::Global;

/// Five bytes.
const TEXT: &[u8] = b"om 1\n";

/// Why there is nothing to read.
const FAULT: Result<usize, ReadError> = Err(ReadError::ReadFault);

const LONG: Result<usize, ReadError> = Err(ReadError::TooLong);

/// Readings of the text in pieces of two: the call that fails, the limit, and the results of a first and a second
/// reading. A result is a number of last bytes of the text, or why there are none.
const READINGS: [(
    u32,
    usize,
    Result<usize, ReadError>,
    Result<usize, ReadError>,
); 10] = [
    // they fail at each call in turn
    (1, 10, FAULT, Ok(5)),
    (2, 10, FAULT, Ok(3)),
    (3, 10, FAULT, Ok(1)),
    (4, 10, FAULT, Ok(0)),
    (5, 10, Ok(5), FAULT),
    (6, 10, Ok(5), Ok(0)),
    // the limit is around the length of the text
    (100, 5, Ok(5), Ok(0)),
    (100, 4, LONG, Ok(0)),
    (100, 3, LONG, Ok(1)),
    (100, 0, LONG, LONG),
];

/// Writings of the text: the room, the greatest piece, the call that fails, and how many bytes are written. If
/// these aren't all, the writing fails.
const WRITINGS: [(usize, usize, u32, usize); 10] = [
    // they fail at each call in turn
    (10, 2, 1, 0),
    (10, 2, 2, 2),
    (10, 2, 3, 4),
    (10, 2, 4, 5),
    // the room ends at each byte
    (0, 10, 100, 0),
    (1, 10, 100, 1),
    (2, 10, 100, 2),
    (3, 10, 100, 3),
    (4, 10, 100, 4),
    (5, 10, 100, 5),
];

/// The list of one number. If memory runs out it is empty, and then no call fails.
fn only(alloc: Global, call: u32) -> List<u32> {
    let mut failing = List::new(alloc);
    let _pushed = failing.push(call);
    failing
}

/// The bytes of the text. If memory runs out there are none.
fn text(alloc: Global) -> Vec<u8> {
    let mut bytes = Vec::new(alloc);
    let _extended = bytes.extend_from_slice(TEXT);
    bytes
}

/// What a source that is always ready gives up to its end or the limit, as a number of last bytes of the text. Other
/// bytes count as running out of memory, which no test expects.
fn read<S: Source>(alloc: Global, source: &mut S, limit: usize) -> Result<usize, ReadError>
    requires { (any : _) → S.ready any }
{
    let bytes = read_all(alloc, source, limit.min(MAX_INPUT))?;
    if TEXT.ends_with(bytes.as_slice()) {
        Ok(bytes.len())
    } else {
        Err(ReadError::Memory)
    }
}

/// What a source that is always ready gives so, and what it gives then.
fn gives<S: Source>(alloc: Global, source: &mut S, limit: usize) -> [Result<usize, ReadError>; 2]
    requires { (any : _) → S.ready any }
{
    let first = read(alloc, source, limit);
    [first, read(alloc, source, limit)]
}

#[test]
fn readings(rt: HostRuntime) {
    let alloc = rt.alloc();
    for (failing, limit, first, rest) in READINGS.iter() {
        let mut source = MemSource::new(text(alloc), 2, only(alloc, *failing));
        assert!(rt; gives(alloc, &mut source, *limit) == [*first, *rest]);
    }
}

/// How many bytes of the text a sink takes, and whether it reports that these aren't all, if it holds only these
/// then.
fn written_to(sink: &mut MemSink) -> Option<usize> {
    let written = match write_all(sink, TEXT) {
        Ok(()) => TEXT.len(),
        Err(fault) => fault.written,
    };
    if TEXT.starts_with(sink.bytes()) && sink.bytes().len() == written {
        Some(written)
    } else {
        None
    }
}

/// The same for an owned sink, if there is one.
fn taken(sink: Result<MemSink, NoMemory>) -> Option<usize> {
    match sink {
        Ok(mut sink) => written_to(&mut sink),
        Err(_) => None,
    }
}

#[test]
fn writings(rt: HostRuntime) {
    let alloc = rt.alloc();
    for (room, piece, failing, written) in WRITINGS.iter() {
        let sink = MemSink::new(alloc, *room, (*piece).max(1), only(alloc, *failing));
        assert!(rt; taken(sink) == Some(*written));
    }
}

#[test]
fn sources_and_sinks_that_never_fail(rt: HostRuntime) {
    let alloc = rt.alloc();
    let mut sink = CountSink::new();
    let written = [write_all(&mut sink, TEXT), write_all(&mut sink, TEXT)];
    assert!(rt; written == [Ok(()); 2] && sink.taken() == 10);
    assert!(rt; gives(alloc, &mut SureSource::new(text(alloc)), 5) == [Ok(5), Ok(0)]);
}

// the room is full after three bytes, and the writer then takes nothing
#[test]
fn writer_that_takes_nothing(rt: HostRuntime) {
    let mut room = [0u8; 3];
    let given = write_all(&mut StdSink::new(room.as_mut_slice()), TEXT);
    assert!(rt; given == Err(WriteFault { written: 3 }));
}
