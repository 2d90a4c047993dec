//! Cutting bytes into pieces.

ghost use Rattle.std.specs.Prelude.{◌≡◌, ◌≤◌, IfOk, OnOk, OnErr, option_map, length};
ghost use Rattle.om_pieces.specs.Making.{most, nothing, fed, last_ended, with_end, rest_of, with_byte, with_line};

use super::seen::Seen;
use om_signs::{MAX_INPUT, NoMemory};
use std::alloc::Global;
use std::marker::Model;
use std::mem;

/// The greatest number of bytes that are kept of a piece. It is one more than an input may have, so that the kept
/// bytes show whether the piece is longer.
const MOST: usize = MAX_INPUT + 1;

/// Takes an input byte by byte, and gives its pieces, of each at most its first [`MOST`] bytes. A call that ends for
/// want of memory leaves it as it was.
#[derive(Drop)]
pub struct Cutter {
    kept: Vec<u8>,
    line: Vec<u8>,
    seen: Seen,
    wanted: u8,
    missing: u8,
    some: bool,
}

impl Model for Cutter {
    ghost use Rattle.std.specs.Prelude.{length, ◌≤◌};
    ghost use Rattle.om_pieces.specs.Making.{Making, most};

    ghost Value = { Making };

    ghost view = { λ c. record {
      kept = c.kept.items;
      line = c.line.items;
      seen = c.seen;
      wanted = c.wanted;
      missing = c.missing;
      some = c.some;
    } };

    ghost invariant = { λ c. (length c.kept.items ≤ most) × (length c.line.items ≤ most) };
}

impl Cutter {
    /// A cutter before the first byte. A piece closes with its `end` line number `wanted`.
    pub fn new(alloc: Global, wanted: u8) -> Cutter
        ensures { result ≡ nothing wanted }
    {
        Cutter {
            kept: Vec::new(alloc),
            line: Vec::new(alloc),
            seen: Seen::Blank,
            wanted,
            missing: wanted,
            some: false,
        }
    }

    /// Takes the next byte, and gives the piece that it completes, if there is one.
    ///
    /// [`NoMemory`] comes only if memory runs out. The byte isn't taken then: the cutter is as it was.
    pub fn feed(&mut self, alloc: Global, byte: u8) -> Result<Option<Vec<u8>>, NoMemory>
        ensures taken { IfOk result (λ piece. (self.new, option_map (λ p. p.items) piece) ≡ fed self.old byte) }
        ensures kept { OnErr result (self.new ≡ self.old) }
    {
        let before = self.line.len();
        add_byte(&mut self.line, byte)?;
        if byte == b'\n' {
            let piece = self.end_line(alloc);
            if piece.is_err() {
                self.line.truncate(before);
            }
            piece
        } else {
            self.seen = self.seen.with(byte);
            Ok(None)
        }
    }

    /// Takes the end of the input, and gives the piece that it completes, if there is one. A last line without a
    /// line feed is a line too.
    ///
    /// [`NoMemory`] comes only if memory runs out. The cutter is then as it was.
    pub fn end(&mut self, alloc: Global) -> Result<Option<Vec<u8>>, NoMemory>
        ensures taken { IfOk result (λ piece. (self.new, option_map (λ p. p.items) piece) ≡ last_ended self.old) }
        ensures kept { OnErr result (self.new ≡ self.old) }
    {
        if self.line.is_empty() {
            Ok(None)
        } else {
            self.end_line(alloc)
        }
    }

    /// Gives what is left after the end of the input, if it is a piece. The cutter is then as before the first byte.
    pub fn rest(&mut self, alloc: Global) -> Option<Vec<u8>>
        ensures piece { option_map (λ p. p.items) result ≡ rest_of self.old }
        ensures anew { self.new ≡ nothing self.old.wanted }
    {
        let anew = Cutter::new(alloc, self.wanted);
        let last = mem::replace(self, anew);
        if last.some { Some(last.kept) } else { None }
    }

    /// Ends the line, and gives the piece that is then complete, if there is one.
    fn end_line(&mut self, alloc: Global) -> Result<Option<Vec<u8>>, NoMemory>
        ensures taken { IfOk result (λ piece. (self.new, option_map (λ p. p.items) piece) ≡ with_end self.old) }
        ensures kept { OnErr result (self.new ≡ self.old) }
    {
        let seen = self.seen;
        if seen.opens() && self.some {
            // the line is the first one of the next piece
            self.seen = Seen::Blank;
            let line = mem::replace(&mut self.line, Vec::new(alloc));
            self.missing = self.wanted;
            return Ok(Some(mem::replace(&mut self.kept, line)));
        }
        add_line(&mut self.kept, self.line.as_slice())?;
        self.line.clear();
        self.seen = Seen::Blank;
        if !seen.closes() {
            self.some = self.some || seen.has_word();
            return Ok(None);
        }
        if self.missing > 1 {
            self.missing -= 1;
            self.some = true;
            return Ok(None);
        }
        self.missing = self.wanted;
        self.some = false;
        Ok(Some(mem::replace(&mut self.kept, Vec::new(alloc))))
    }
}

/// Appends a byte, if there is room.
fn add_byte(line: &mut Vec<u8>, byte: u8) -> Result<(), NoMemory>
    requires { length line.old.items ≤ most }
    ensures added { OnOk result (line.new.items ≡ with_byte line.old.items byte) }
    ensures kept { OnErr result (line.new.items ≡ line.old.items) }
    ensures within { length line.new.items ≤ most }
{
    if line.len() < MOST {
        line.push(byte)?;
    }
    Ok(())
}

/// Appends a line, as far as there is room.
fn add_line(kept: &mut Vec<u8>, line: &[u8]) -> Result<(), NoMemory>
    requires { length kept.old.items ≤ most }
    ensures added { OnOk result (kept.new.items ≡ with_line kept.old.items line.now) }
    ensures kept { OnErr result (kept.new.items ≡ kept.old.items) }
    ensures within { length kept.new.items ≤ most }
{
    let room = MOST - kept.len();
    let len = line.len().min(room);
    kept.extend_from_slice(&line[..len])?;
    Ok(())
}
