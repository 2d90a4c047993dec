//! A whole run: the documents of a source, one after the other.

ghost use Rattle.std.specs.Prelude.{ℕ, ◌≡◌, ◌≢◌, ◌⊎◌, ◌≤◌, ◌++◌, ◌∷◌, List, [], Option, IfSome, map};
ghost use Rattle.std.specs.Prelude.{option_map, string_bytes};
ghost use Rattle.om_port.specs.Causes.{Rose, TakesSome};
ghost use Rattle.om_pieces.specs.Making.{made, option_list};
ghost use Rattle.om_classification.specs.declared.request.Request.{Request as Asking};
ghost use Rattle.om_classification.specs.Requests.{IsRequest, Names};
ghost use Rattle.om_classification.specs.Answers.{IsGoing, IsOutcome, IsStopped};
ghost use Rattle.om_classification.specs.Runs.{HasRun, IsUsageCutOff, IsUsageWritten, TakesAll};

use super::progress::Progress;
use super::request::{Request, request_of};
use super::writing::write_text;
use om_pieces::Cutter;
use om_port::{Sink, Source};
use om_reply::{Status, write_usage};
use std::alloc::Global;
use std::thread::Threads;

/// The greatest number of bytes that one call asks for.
const CHUNK: usize = 16_384;

/// How many `end` lines close a piece.
const ENDS: u8 = 1;

/// Reads lists of chirotopes of rank 3, those on 4, 5, and so on elements one after the other, and shows that each is
/// complete or, where that is asked, exact. Each list is shown by the one before it, and that on three elements is
/// built in. The line of a list is written as soon as the list has ended. The first thing that is wrong ends the run,
/// with a line that says what it is.
///
/// Or it reads documents of chirotopes of rank 3, and writes for each the document of the least map of its class,
/// before it reads the next. The first document at fault ends the run, with the line that the lists have for it.
///
/// The words are `all` or `uniform`, alone or followed by `--complete`, or `least` for least maps. The status is
/// [`Status::Done`] if all lists are shown or all least maps written, and [`Status::Refused`] if something is wrong. It
/// is [`Status::Limit`] if a member has too many extensions to be listed. A fault or a lack of memory ends the run at
/// once. So do 2^64 - 1 documents or readings, with [`Status::NoMemory`]: at a thousand million a second they would
/// take 584 years.
///
/// Memory is taken for the last two lists, packed, or for one least map, and for two pieces of the stream. Source and
/// sink have to be ready, as those of `om_port` always are.
///
/// Source: Björner, Las Vergnas, Sturmfels, White and Ziegler, *Oriented Matroids*, chapters 3 and 7; Finschi and
/// Fukuda, *Generation of oriented matroids* (2002).
pub fn classify<R: Threads + Sync, S: Source, K: Sink>(
    rt: &R,
    alloc: Global,
    words: &[String],
    source: &mut S,
    sink: &mut K,
) -> Status
    requires source_ready { S.ready source.old }
    requires sink_ready { K.ready sink.old }

    // With Done the pieces of the source are documents of the members of lists, each of them shown, and the lines of
    // the lists were written. With Refused and Limit these are the lines of the first lists, followed by the line that
    // says what is wrong then. With ReadFault and NoMemory they are the lines of the first lists, each whole, and with
    // WriteFault a proper prefix of such a text. For least maps the pieces are documents of chirotopes of rank 3, and
    // in place of the lines of lists stand the documents of the least maps of their classes, in order.
    ensures answer { (r : Asking) → Names (map string_bytes words.now) r
        → IfSome (S.left source.old) (λ bytes. HasRun r bytes result (K.taken sink.old) (K.taken sink.new)) }

    // Other words end with their usage, or with a write fault, and leave the source as it was.
    ensures usage { (IsRequest (map string_bytes words.now) → ⊥)
        → (result ≡ Status.Usage) ⊎ (result ≡ Status.WriteFault) }
    ensures usage_line { (IsRequest (map string_bytes words.now) → ⊥) → result ≡ Status.Usage
        → IsUsageWritten (map string_bytes words.now) (K.taken sink.old) (K.taken sink.new) }
    ensures usage_cut { (IsRequest (map string_bytes words.now) → ⊥) → result ≡ Status.WriteFault
        → IsUsageCutOff (map string_bytes words.now) (K.taken sink.old) (K.taken sink.new) }
    ensures only { result ≡ Status.Usage → IsRequest (map string_bytes words.now) → ⊥ }
    ensures unread { (IsRequest (map string_bytes words.now) → ⊥) → source.new ≡ source.old }

    // Each fault was counted in this run.
    ensures read { result ≡ Status.ReadFault → Rose (S.faults source.old) (S.faults source.new) }
    ensures write { result ≡ Status.WriteFault → Rose (K.faults sink.old) (K.faults sink.new) }

    // A run with Done has taken all that the source had left.
    ensures taken { result ≡ Status.Done → TakesAll (S.left source.old) (S.left source.new) }

    // The bytes given by the source are a prefix of what it had left, and no count falls.
    ensures prefix { TakesSome (S.left source.old) (S.left source.new) }
    ensures source_later { S.faults source.old ≤ S.faults source.new }
    ensures sink_later { K.faults sink.old ≤ K.faults sink.new }
{
    match request_of(words) {
        Ok(request) => read_documents(rt, alloc, request, source, sink),
        Err(usage) => write_usage(sink, usage),
    }
}

/// Reads the documents of a source.
fn read_documents<R: Threads + Sync, S: Source, K: Sink>(
    rt: &R,
    alloc: Global,
    request: Request,
    source: &mut S,
    sink: &mut K,
) -> Status
    requires source_ready { S.ready source.old }
    requires sink_ready { K.ready sink.old }
    ensures answer { IfSome (S.left source.old) (λ bytes.
        HasRun request bytes result (K.taken sink.old) (K.taken sink.new)) }
    ensures no_usage { result ≢ Status.Usage }
    ensures read { result ≡ Status.ReadFault → Rose (S.faults source.old) (S.faults source.new) }
    ensures write { result ≡ Status.WriteFault → Rose (K.faults sink.old) (K.faults sink.new) }
    ensures taken { result ≡ Status.Done → TakesAll (S.left source.old) (S.left source.new) }
    ensures prefix { TakesSome (S.left source.old) (S.left source.new) }
    ensures source_later { S.faults source.old ≤ S.faults source.new }
    ensures sink_later { K.faults sink.old ≤ K.faults sink.new }
{
    let Ok(begun) = Progress::new(alloc, request) else {
        return Status::NoMemory;
    };
    let mut progress = begun;
    let mut cutter = Cutter::new(alloc, ENDS);
    let mut chunk = [0u8; CHUNK];
    for _turn in 0..u64::MAX {
        match source.read(&mut chunk) {
            Ok(0) => return take_end(rt, alloc, progress, &mut cutter, sink),
            Ok(count) => {
                match take_bytes(rt, alloc, &mut progress, &mut cutter, &chunk[..count], sink) {
                    Status::Done => {}
                    status => return status,
                }
            }
            Err(_) => return Status::ReadFault,
        }
    }
    // Never reached in practice: each turn takes at least a byte.
    Status::NoMemory
}

/// Takes the pieces that these bytes complete.
fn take_bytes<R: Threads + Sync, K: Sink>(
    rt: &R,
    alloc: Global,
    progress: &mut Progress,
    cutter: &mut Cutter,
    bytes: &[u8],
    sink: &mut K,
) -> Status
    requires ready { K.ready sink.old }
    ensures outcome { (r : Asking) (all : List (List ℕ)) (rest : List ℕ) (first : Option (List ℕ))
        → IsGoing r all progress.old (made cutter.old (bytes.now ++ rest)) first (K.taken sink.old)
        → IsOutcome r all result progress.new (made cutter.new rest) first (K.taken sink.new) }
    ensures no_usage { result ≢ Status.Usage }
    ensures no_read { result ≢ Status.ReadFault }
    ensures write { result ≡ Status.WriteFault → Rose (K.faults sink.old) (K.faults sink.new) }
    ensures again { result ≡ Status.Done → K.ready sink.new }
    ensures later { K.faults sink.old ≤ K.faults sink.new }
{
    for byte in bytes {
        match take_byte(rt, alloc, progress, cutter, *byte, sink) {
            Status::Done => {}
            status => return status,
        }
    }
    Status::Done
}

/// Takes the piece that this byte completes, if there is one.
fn take_byte<R: Threads + Sync, K: Sink>(
    rt: &R,
    alloc: Global,
    progress: &mut Progress,
    cutter: &mut Cutter,
    byte: u8,
    sink: &mut K,
) -> Status
    requires ready { K.ready sink.old }
    ensures outcome { (r : Asking) (all : List (List ℕ)) (rest : List ℕ) (first : Option (List ℕ))
        → IsGoing r all progress.old (made cutter.old (byte ∷ rest)) first (K.taken sink.old)
        → IsOutcome r all result progress.new (made cutter.new rest) first (K.taken sink.new) }
    ensures no_usage { result ≢ Status.Usage }
    ensures no_read { result ≢ Status.ReadFault }
    ensures write { result ≡ Status.WriteFault → Rose (K.faults sink.old) (K.faults sink.new) }
    ensures again { result ≡ Status.Done → K.ready sink.new }
    ensures later { K.faults sink.old ≤ K.faults sink.new }
{
    match cutter.feed(alloc, byte) {
        Ok(piece) => take_piece(rt, alloc, progress, piece, sink),
        Err(_) => Status::NoMemory,
    }
}

/// Takes the next piece, if there is one.
fn take_piece<R: Threads + Sync, K: Sink>(
    rt: &R,
    alloc: Global,
    progress: &mut Progress,
    piece: Option<Vec<u8>>,
    sink: &mut K,
) -> Status
    requires ready { K.ready sink.old }
    ensures outcome { (r : Asking) (all left : List (List ℕ)) (first : Option (List ℕ))
        → IsGoing r all progress.old (option_list (option_map (λ p. p.items) piece) ++ left) first (K.taken sink.old)
        → IsOutcome r all result progress.new left first (K.taken sink.new) }
    ensures no_usage { result ≢ Status.Usage }
    ensures no_read { result ≢ Status.ReadFault }
    ensures write { result ≡ Status.WriteFault → Rose (K.faults sink.old) (K.faults sink.new) }
    ensures again { result ≡ Status.Done → K.ready sink.new }
    ensures later { K.faults sink.old ≤ K.faults sink.new }
{
    let Some(piece) = piece else {
        return Status::Done;
    };
    match progress.take(rt, alloc, piece.as_slice()) {
        Ok(step) => write_text(sink, step.text.as_slice(), step.status),
        Err(_) => Status::NoMemory,
    }
}

/// Takes the pieces that the end of the source completes, and the end of the stream.
fn take_end<R: Threads + Sync, K: Sink>(
    rt: &R,
    alloc: Global,
    progress: Progress,
    cutter: &mut Cutter,
    sink: &mut K,
) -> Status
    requires ready { K.ready sink.old }
    ensures outcome { (r : Asking) (all : List (List ℕ)) (first : Option (List ℕ))
        → IsGoing r all progress (made cutter.old []) first (K.taken sink.old)
        → IsStopped r all result first (K.taken sink.new) }
    ensures no_usage { result ≢ Status.Usage }
    ensures no_read { result ≢ Status.ReadFault }
    ensures write { result ≡ Status.WriteFault → Rose (K.faults sink.old) (K.faults sink.new) }
    ensures later { K.faults sink.old ≤ K.faults sink.new }
{
    let mut progress = progress;
    let Ok(piece) = cutter.end(alloc) else {
        return Status::NoMemory;
    };
    match take_piece(rt, alloc, &mut progress, piece, sink) {
        Status::Done => {}
        status => return status,
    }
    match take_piece(rt, alloc, &mut progress, cutter.rest(alloc), sink) {
        Status::Done => finish(rt, alloc, progress, sink),
        status => status,
    }
}

/// Takes the end of the stream.
fn finish<R: Threads + Sync, K: Sink>(
    rt: &R,
    alloc: Global,
    progress: Progress,
    sink: &mut K,
) -> Status
    requires ready { K.ready sink.old }
    ensures outcome { (r : Asking) (all : List (List ℕ)) (first : Option (List ℕ))
        → IsGoing r all progress [] first (K.taken sink.old) → IsStopped r all result first (K.taken sink.new) }
    ensures no_usage { result ≢ Status.Usage }
    ensures no_read { result ≢ Status.ReadFault }
    ensures write { result ≡ Status.WriteFault → Rose (K.faults sink.old) (K.faults sink.new) }
    ensures later { K.faults sink.old ≤ K.faults sink.new }
{
    match progress.end(rt, alloc) {
        Ok(step) => write_text(sink, step.text.as_slice(), step.status),
        Err(_) => Status::NoMemory,
    }
}
