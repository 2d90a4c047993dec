//! Runs in memory: what they are given, and how they end.

use om_port::{MemSink, MemSource, Source, SureSource, read_all};
use om_program::{Status, run, run_each};
use om_signs::{List, NoMemory};
use std::alloc::{AllocError, Global};
use std::thread::Threads;

/// On what the words of a run are carried out.
#[derive(Clone, Copy)]
pub enum On {
    /// The whole input.
    Input,
    /// Each document of the input.
    Each,
}

/// A source in memory: its input, at most how many bytes it gives per call, and the call that fails. There is no
/// call 0.
#[derive(Clone, Copy)]
pub struct Feed<'a> {
    pub input: &'a [u8],
    pub piece: usize,
    pub failing: u32,
}

/// A sink in memory: its room, at most how many bytes it takes per call, and the call that fails.
#[derive(Clone, Copy)]
pub struct Room {
    pub bytes: usize,
    pub piece: usize,
    pub failing: u32,
}

/// A sink's room, at most how many bytes it takes per call, and the call that fails.
pub fn room_of(bytes: usize, piece: usize, failing: u32) -> Room {
    Room {
        bytes,
        piece,
        failing,
    }
}

/// A room for each answer, which takes all of it in one call.
pub const AMPLE: Room = Room {
    bytes: 400,
    piece: 400,
    failing: 0,
};

/// The exit code of a run for which memory ran out.
pub const OUT_OF_MEMORY: u8 = 6;

/// How a run ended: the exit code, and how many bytes of the expected text the sink holds, if it holds only these.
pub type End = (u8, Option<usize>);

/// The words of a line, an input, the exit code and what is written.
pub type Row = (&'static str, &'static str, u8, &'static str);

/// The bytes of these pieces in turn.
fn joined(alloc: Global, pieces: &[&[u8]]) -> Result<Vec<u8>, NoMemory> {
    let mut bytes = Vec::new(alloc);
    for piece in pieces.iter() {
        bytes.extend_from_slice(piece)?;
    }
    Ok(bytes)
}

/// Appends a word.
fn push_word(alloc: Global, words: &mut Vec<String>, word: &str) -> Result<(), AllocError> {
    let word = String::from_str(alloc, word)?;
    Ok(words.push(word)?)
}

/// The words of a line, which are separated by single spaces.
pub fn words_of(alloc: Global, line: &str) -> Result<Vec<String>, NoMemory> {
    let mut words = Vec::new(alloc);
    for word in line.split(' ') {
        push_word(alloc, &mut words, word)?;
    }
    Ok(words)
}

/// The list of one call.
fn only(alloc: Global, call: u32) -> Result<List<u32>, NoMemory> {
    let mut failing = List::new(alloc);
    failing.push(call)?;
    Ok(failing)
}

/// A source of this kind.
fn source_of(alloc: Global, feed: Feed) -> Result<MemSource, NoMemory> {
    let failing = only(alloc, feed.failing)?;
    let bytes = joined(alloc, &[feed.input])?;
    Ok(MemSource::new(bytes, feed.piece.max(1), failing))
}

/// A sink of this kind.
fn sink_of(alloc: Global, room: Room) -> Result<MemSink, NoMemory> {
    MemSink::new(
        alloc,
        room.bytes,
        room.piece.max(1),
        only(alloc, room.failing)?,
    )
}

/// How many bytes of a text these are, if they are its first ones.
fn count_first(bytes: &[u8], text: &[u8]) -> Option<usize> {
    if text.starts_with(bytes) {
        Some(bytes.len())
    } else {
        None
    }
}

/// How many bytes of a text a source has left, if they are its last ones and no call for them fails.
fn count_left(alloc: Global, source: &mut MemSource, text: &[u8]) -> Option<usize> {
    match read_all(alloc, source, 1_000) {
        Ok(bytes) if text.ends_with(bytes.as_slice()) => Some(bytes.len()),
        _ => None,
    }
}

/// The status with which the words are carried out.
fn status_of<R: Threads + Sync, S: Source>(
    rt: &R,
    alloc: Global,
    on: On,
    words: &[String],
    source: &mut S,
    sink: &mut MemSink,
) -> Status
    requires { (any : _) → S.ready any }
{
    match on {
        On::Input => run(rt, alloc, words, source, sink),
        On::Each => run_each(rt, alloc, words, source, sink),
    }
}

/// How a run of the words of a line ends, with this text as the expected one. The error is that memory runs out
/// before the run.
pub fn end_of<R: Threads + Sync, S: Source>(
    rt: &R,
    alloc: Global,
    on: On,
    line: &str,
    source: &mut S,
    room: Room,
    text: &[u8],
) -> Result<End, NoMemory>
    requires { (any : _) → S.ready any }
{
    let words = words_of(alloc, line)?;
    let mut sink = sink_of(alloc, room)?;
    let status = status_of(rt, alloc, on, words.as_slice(), source, &mut sink);
    Ok((status.code(), count_first(sink.bytes(), text)))
}

/// How a run over a source that never fails ends, with these pieces of the input.
pub fn end_over_sure<R: Threads + Sync>(
    rt: &R,
    alloc: Global,
    on: On,
    line: &str,
    pieces: &[&[u8]],
    room: Room,
    text: &[u8],
) -> Result<End, NoMemory> {
    let mut source = SureSource::new(joined(alloc, pieces)?);
    end_of(rt, alloc, on, line, &mut source, room, text)
}

/// How a run over a source of this kind ends, and how many of the last bytes of its input the source has left then,
/// if it gives only these, and no call for them fails.
pub fn end_over<R: Threads + Sync>(
    rt: &R,
    alloc: Global,
    on: On,
    line: &str,
    feed: Feed,
    room: Room,
    text: &[u8],
) -> Result<(End, Option<usize>), NoMemory> {
    let mut source = source_of(alloc, feed)?;
    let end = end_of(rt, alloc, on, line, &mut source, room, text)?;
    Ok((end, count_left(alloc, &mut source, feed.input)))
}

/// Whether a run over a source that never fails, and one that reads and writes byte by byte, both end as a row says.
pub fn both_end<R: Threads + Sync>(rt: &R, alloc: Global, on: On, row: &Row) -> bool {
    let (line, input, code, output) = *row;
    let feed = Feed {
        input: input.as_bytes(),
        piece: 1,
        failing: 0,
    };
    let (end, text) = ((code, Some(output.len())), output.as_bytes());
    let whole = end_over_sure(rt, alloc, on, line, &[feed.input], AMPLE, text);
    match end_over(rt, alloc, on, line, feed, room_of(400, 1, 0), text) {
        Ok((slow, _)) => slow == end && whole == Ok(end),
        Err(_) => false,
    }
}
