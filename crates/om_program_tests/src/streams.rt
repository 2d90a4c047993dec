//! Runs over many documents, whose source or sink fails at each call in turn, and streams of several kinds.

use super::helpers::{
    AMPLE, End, Feed, OUT_OF_MEMORY, On, Room, Row, both_end, end_of, end_over, end_over_sure,
    room_of,
};
use om_port::SureSource;
use om_signs::MAX_INPUT;
use std::alloc::Global;
use std::thread::Threads;

/// Four documents in 83 bytes. The third one breaks off before `om`, and no line feed ends the last line.
const STREAM: &[u8] =
    b"om 1\nchirotope 3 4\n++++\nend\nom 1\nchirotope 3 4\n0000\nend\nom 1\nchirotope 3 4\nom 1\nend";

/// The answers to them, in 68 bytes.
const ANSWERS: &[u8] = b"accepted\nrefused allzero\nrefused line 3 missing\nrefused line 2 kind\n";

/// How many bytes are read when the texts of the first documents are written, and how many bytes these texts have.
/// The last text is written at the end of the input.
const STEPS: [(usize, usize); 4] = [(0, 0), (28, 9), (56, 25), (80, 48)];

/// How many bytes are written when this many are read.
fn written_at(read: usize) -> usize {
    let mut all = 0;
    for (whole, written) in STEPS.iter() {
        if *whole <= read {
            all = *written;
        }
    }
    all
}

/// How many bytes are read when the text to which this byte belongs is written.
fn read_at(place: usize) -> usize {
    for (whole, written) in STEPS.iter() {
        if place < *written {
            return *whole;
        }
    }
    STREAM.len()
}

/// Whether this many bytes are the texts of the first documents, each whole.
fn are_whole(count: usize) -> bool {
    for (_, written) in STEPS.iter() {
        if *written == count {
            return true;
        }
    }
    false
}

/// Whether the documents, given byte by byte by a source that fails at this call, end like this, and the source then
/// has this many bytes left.
fn end_with<R: Threads + Sync>(
    rt: &R,
    alloc: Global,
    failing: u32,
    room: Room,
    end: End,
    left: Option<usize>,
) -> bool {
    let feed = Feed {
        input: STREAM,
        piece: 1,
        failing,
    };
    end_over(rt, alloc, On::Each, "accept", feed, room, ANSWERS) == Ok((end, left))
}

// 83 calls give a byte each, and call 84 the end of the input; there is no call 85, so that it fails only later
#[test]
fn sources_that_fail(rt: HostRuntime) {
    let alloc = rt.alloc();
    for call in 1..85 {
        let read = (call as usize).saturating_sub(1);
        let end = (4, Some(written_at(read)));
        let left = Some(STREAM.len().saturating_sub(read));
        assert!(rt;
            end_with(&rt, alloc, call, AMPLE, end, left),
            "at call {call}"
        );
    }
    assert!(rt; end_with(&rt, alloc, 85, room_of(100, 1, 0), (1, Some(68)), None));
}

/// Whether the documents are read no further than to the end of the one whose text is cut off after this many bytes
/// in all.
fn break_off<R: Threads + Sync>(rt: &R, alloc: Global, room: Room, held: usize) -> bool {
    let left = STREAM.len().saturating_sub(read_at(held));
    end_with(rt, alloc, 0, room, (5, Some(held)), Some(left))
}

// each text is written before a byte after its document is read
#[test]
fn sinks_that_fail(rt: HostRuntime) {
    let alloc = rt.alloc();
    for held in 0..68 {
        let call = u32::try_from(held).unwrap_or(0).saturating_add(1);
        assert!(rt;
            break_off(&rt, alloc, room_of(100, 1, call), held),
            "behind {held} bytes"
        );
        assert!(rt;
            break_off(&rt, alloc, room_of(held, 7, 0), held),
            "a room of {held}"
        );
    }
}

/// Whether the documents end with all answers, or run out of memory with the first answers complete. If memory runs
/// out before the run, this is true.
fn end_or_want<R: Threads + Sync>(rt: &R, alloc: Global) -> bool {
    match end_over_sure(rt, alloc, On::Each, "accept", &[STREAM], AMPLE, ANSWERS) {
        Ok((1, Some(held))) => held == ANSWERS.len(),
        Ok((OUT_OF_MEMORY, Some(held))) => are_whole(held),
        Ok(_) => false,
        Err(_) => true,
    }
}

// for runs of the tests in which an allocation fails, as memory is ample in the others
#[test]
fn documents_or_want_of_memory(rt: HostRuntime) {
    assert!(rt; end_or_want(&rt, rt.alloc()));
}

/// Streams without documents, of several, and of ones that are refused or too large; and words that aren't for streams.
const STREAMS: [Row; 9] = [
    ("accept", "", 0, ""),
    ("accept", "# none\n\n \t", 0, ""),
    (
        "accept",
        "\nom 1\nchirotope 0 1\n+\n end # one\n\n# two\nom 1\nchirotope 0 1\n+\nend",
        0,
        "accepted\naccepted\n",
    ),
    (
        "convert covectors",
        "om 1\nchirotope 16 16\n+\nend\nom 1\nchirotope 0 1\n+\nend\nom 1\nchirotope 0 1\n0\nend\n",
        3,
        "limit members 4096\nom 1\ncovectors 1\n0\nend\nrefused allzero\n",
    ),
    (
        "check",
        "om 1\nchirotope 3 3\n+\nend\nundecided\nweight 1 2 3 1\nexhausted\nend\nom 1\nchirotope 3 3\n+\nend\nom 1\nend\nend\n",
        1,
        "valid undecided\nrefused line 5 missing\nrefused line 2 kind\n",
    ),
    (
        "check",
        "end\nend\nend\n",
        1,
        "refused line 1 version\nrefused line 1 version\n",
    ),
    ("make 7", "om 1\nchirotope 0 1\n+\nend\n", 2, "usage 1\n"),
    ("accept x", "om 1\nchirotope 0 1\n+\nend\n", 2, "usage 2\n"),
    (
        "accept",
        "end om\nom\nom 1\n",
        1,
        "refused line 1 version\nrefused line 1 version\nrefused line 2 missing\n",
    ),
];

#[test]
fn streams(rt: HostRuntime) {
    let alloc = rt.alloc();
    for row in STREAMS.iter() {
        assert!(rt; both_end(&rt, alloc, On::Each, row), "{:?}", row.1);
    }
}

/// A comment line of this many bytes, followed by the documents. If memory runs out there are fewer bytes.
fn behind_a_comment(alloc: Global, count: usize) -> Vec<u8> {
    let mut bytes = Vec::new(alloc);
    for _byte in 0..count {
        let _pushed = bytes.push(b'#');
    }
    let _ended = bytes.push(b'\n');
    let _extended = bytes.extend_from_slice(STREAM);
    bytes
}

/// Whether the documents end with these answers if the first one has a comment of this many bytes.
fn answer_with<R: Threads + Sync>(rt: &R, alloc: Global, count: usize, answers: &[u8]) -> bool {
    let mut source = SureSource::new(behind_a_comment(alloc, count));
    let end = end_of(rt, alloc, On::Each, "accept", &mut source, AMPLE, answers);
    end == Ok((1, Some(answers.len())))
}

// the first document has 28 bytes and a line feed besides its comment; one byte more, and it is too long
#[test]
fn long_piece(rt: HostRuntime) {
    let answers = b"refused long\nrefused allzero\nrefused line 3 missing\nrefused line 2 kind\n";
    assert!(rt; answer_with(&rt, rt.alloc(), MAX_INPUT - 29, ANSWERS));
    assert!(rt; answer_with(&rt, rt.alloc(), MAX_INPUT - 28, answers.as_slice()));
}
