//! Runs whose source or sink fails at each call in turn, and sinks whose room ends at each byte.

use super::helpers::{AMPLE, End, Feed, On, Room, end_over, room_of};
use std::alloc::Global;
use std::thread::Threads;

/// 28 bytes.
const PLUS: &[u8] = b"om 1\nchirotope 3 4\n++++\nend\n";

/// Its circuits, 30 bytes.
const CIRCUITS: &[u8] = b"om 1\ncircuits 4\n-+-+\n+-+-\nend\n";

/// Whether a run of `accept` over a source that gives pieces of this length and fails at this call ends like this,
/// and the source then has this many bytes left.
fn accepts<R: Threads + Sync>(
    rt: &R,
    alloc: Global,
    piece: usize,
    failing: u32,
    end: End,
    left: Option<usize>,
) -> bool {
    let feed = Feed {
        input: PLUS,
        piece,
        failing,
    };
    end_over(rt, alloc, On::Input, "accept", feed, AMPLE, b"accepted\n") == Ok((end, left))
}

// 28 calls give a byte each, and call 29 the end of the input; there is no call 30, so that it fails only later. The
// source still has all bytes that it hadn't given before the fault, so no call came after it.
#[test]
fn sources_that_fail(rt: HostRuntime) {
    let alloc = rt.alloc();
    let nothing = (4, Some(0));
    for call in 1..30 {
        let left = PLUS.len().saturating_sub((call as usize).saturating_sub(1));
        assert!(rt;
            accepts(&rt, alloc, 1, call, nothing, Some(left)),
            "at call {call}"
        );
    }
    assert!(rt; accepts(&rt, alloc, 8, 2, nothing, Some(20)));
    assert!(rt; accepts(&rt, alloc, 1, 30, (0, Some(9)), None));
}

/// Whether the circuits, written to a sink of this kind, end with this exit code, and the sink then holds this many
/// of their first bytes.
fn end_writing<R: Threads + Sync>(
    rt: &R,
    alloc: Global,
    room: Room,
    code: u8,
    held: usize,
) -> bool {
    let feed = Feed {
        input: PLUS,
        piece: 100,
        failing: 0,
    };
    let end = end_over(
        rt,
        alloc,
        On::Input,
        "convert circuits",
        feed,
        room,
        CIRCUITS,
    );
    end == Ok(((code, Some(held)), Some(0)))
}

// 30 calls take a byte each; there is no call 31
#[test]
fn sinks_that_fail(rt: HostRuntime) {
    let alloc = rt.alloc();
    for call in 1..31 {
        let held = (call as usize).saturating_sub(1);
        assert!(rt;
            end_writing(&rt, alloc, room_of(100, 1, call), 5, held),
            "at call {call}"
        );
    }
    assert!(rt; end_writing(&rt, alloc, room_of(100, 1, 31), 0, 30));
    assert!(rt; end_writing(&rt, alloc, room_of(100, 10, 2), 5, 10));
}

#[test]
fn rooms_that_end(rt: HostRuntime) {
    let alloc = rt.alloc();
    for bytes in 0..30 {
        assert!(rt;
            end_writing(&rt, alloc, room_of(bytes, 1, 0), 5, bytes),
            "a room of {bytes}"
        );
    }
    assert!(rt; end_writing(&rt, alloc, room_of(30, 1, 0), 0, 30));
}
