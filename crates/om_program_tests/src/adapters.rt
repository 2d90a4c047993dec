//! The adapters over a reader and a writer of std that fail once, and move nothing once, and then continue. They show
//! that an error of the inner object is a fault, that nothing else is, and that each call is one call of the inner
//! object: none is tried again after an error, and none is made once more at the end. No clause can state this, since
//! the contracts of std's readers and writers say nothing about errors, and count no calls.

use om_port::{Failed, Sink, Source, StdSink, StdSource};
use std::io;
use std::io::{Error, ErrorKind, Read, Write};

/// A reader and a writer whose calls are counted from 1. A call moves as many bytes as its number says, if there is
/// room, so that a call too many shows in the next one. Call number `failing` fails, and number `empty` moves nothing.
#[derive(Drop)]
struct Counting {
    calls: usize,
    failing: usize,
    empty: usize,
    kind: ErrorKind,
}

impl Counting {
    /// Before the first call.
    fn new(failing: usize, empty: usize, kind: ErrorKind) -> Counting {
        Counting {
            calls: 0,
            failing,
            empty,
            kind,
        }
    }

    /// The number of bytes that the next call moves, or its error.
    fn turn(&mut self, room: usize) -> io::Result<usize> {
        self.calls = self.calls.saturating_add(1);
        if self.calls == self.failing {
            return Err(Error::from(self.kind));
        }
        if self.calls == self.empty {
            return Ok(0);
        }
        Ok(self.calls.min(room))
    }
}

impl Read for Counting {
    fn read(&mut self, buf: &mut [u8]) -> io::Result<usize> {
        let count = self.turn(buf.len())?;
        Ok(count.min(buf.len()))
    }
}

impl Write for Counting {
    fn write(&mut self, buf: &[u8]) -> io::Result<usize> {
        let count = self.turn(buf.len())?;
        Ok(count.min(buf.len()))
    }

    fn flush(&mut self) -> io::Result<()> {
        Ok(())
    }
}

/// The reasons for which a call fails once: the kinds for which std's own loops try again, and others.
const KINDS: [ErrorKind; 4] = [
    ErrorKind::Interrupted,
    ErrorKind::WouldBlock,
    ErrorKind::BrokenPipe,
    ErrorKind::Other,
];

/// What six readings from a reader give.
fn readings(reader: Counting) -> [Result<usize, Failed>; 6] {
    let mut source = StdSource::new(reader);
    let mut buf = [0u8; 32];
    let mut given = [Ok(0); 6];
    for reading in given.iter_mut() {
        *reading = source.read(&mut buf);
    }
    given
}

/// What six writings of many bytes to a writer give.
fn writings(writer: Counting) -> [Result<usize, Failed>; 6] {
    let mut sink = StdSink::new(writer);
    let bytes = [0u8; 32];
    let mut given = [Ok(0); 6];
    for writing in given.iter_mut() {
        *writing = sink.write(&bytes);
    }
    given
}

#[test]
fn errors_are_told_once(rt: HostRuntime) {
    for kind in KINDS.iter() {
        let given = readings(Counting::new(3, 5, *kind));
        assert!(rt; given == [Ok(1), Ok(2), Err(Failed), Ok(4), Ok(0), Ok(6)]);
        let given = writings(Counting::new(3, 5, *kind));
        assert!(rt; given == [Ok(1), Ok(2), Err(Failed), Ok(4), Err(Failed), Ok(6)]);
    }
}

#[test]
fn no_error_is_no_fault(rt: HostRuntime) {
    let given = readings(Counting::new(0, 2, ErrorKind::Other));
    assert!(rt; given == [Ok(1), Ok(0), Ok(3), Ok(4), Ok(5), Ok(6)]);
    let given = writings(Counting::new(0, 0, ErrorKind::Other));
    assert!(rt; given == [Ok(1), Ok(2), Ok(3), Ok(4), Ok(5), Ok(6)]);
}
