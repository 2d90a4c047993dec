ghost use Rattle.std.specs.Prelude.{◌≡◌, ◌+◌, ◌-◌, ◌<◌, ◌≤◌, ◌↔◌, ◌⊎◌, [], min, length, IfOk, IsErr, Some, ⊤};
ghost use Rattle.std.specs.Io.{WritesAtMost};
ghost use Rattle.std.specs.Io.KnownBytes.{WriteAppends};
ghost use Rattle.om_port.specs.Causes.{HasCause, CountsFault, raised};
ghost use Rattle.om_port.specs.Calls.{IsListed};

use super::failed::Failed;
use super::plan::Plan;
use super::sink::Sink;
use om_signs::{List, NoMemory};
use std::alloc::Global;
use std::marker::Model;

/// Room in memory that is filled in pieces. Its calls fail at given numbers, and when the room is full.
#[derive(Drop)]
pub struct MemSink {
    bytes: Vec<u8>,
    room: usize,
    piece: usize,
    plan: Plan,
}

impl Model for MemSink {
    ghost use Rattle.std.specs.Prelude.{length, ◌≤◌, vec_capacity};
    ghost use Rattle.om_port.specs.Held.{Held};

    ghost Value = { Held };

    ghost view = { λ s. record {
      bytes = s.bytes.items;
      room = s.room;
      piece = s.piece;
      failing = s.plan.failing;
      calls =
          s.plan.calls;
      faults = s.plan.faults;
    } };

    ghost invariant = { λ s. (1 ≤ s.piece) × (length s.bytes.items ≤ s.room) × (s.room ≤ vec_capacity s.bytes) };
}

impl MemSink {
    /// A sink with room for `room` bytes, which takes at most `piece` of them in a call. It fails exactly at the
    /// calls whose numbers, counted from 1, are in `failing`, and when its room is full and there is a byte to
    /// take. `piece` is at least 1. No list contains a call after number 4,294,967,295.
    ///
    /// The whole room is allocated here, and later calls allocate no memory. [`NoMemory`] comes only if memory runs
    /// out.
    pub fn new(
        alloc: Global,
        room: usize,
        piece: usize,
        failing: List<u32>,
    ) -> Result<MemSink, NoMemory>
        requires { 1 ≤ piece }
        ensures { IfOk result
            (λ s. s ≡ record { bytes = []; room = room; piece = piece; failing = failing; calls = 0; faults = 0 }) }
    {
        let bytes = Vec::with_capacity(alloc, room)?;
        Ok(MemSink {
            bytes,
            room,
            piece,
            plan: Plan::new(failing),
        })
    }

    /// The bytes that were taken.
    pub fn bytes(&self) -> &[u8]
        ensures { result.now ≡ self.now.bytes }
    {
        self.bytes.as_slice()
    }
}

impl Sink for MemSink {
    ghost taken = { λ s. Some s.bytes };

    ghost faults = { λ s. s.faults };

    ghost ready = { λ _. ⊤ };

    fn write(&mut self, bytes: &[u8]) -> Result<usize, Failed>
        ensures bound { WritesAtMost result bytes.now }
        ensures some { 0 < length bytes.now → IfOk result (λ k. 0 < k) }
        ensures bytes { WriteAppends (Some self.old.bytes) (Some self.new.bytes) result bytes.now }
        ensures cause { HasCause self.old.faults self.new.faults result }
        ensures told { IsErr result
            ↔ (IsListed self.old.failing (self.old.calls + 1)
            ⊎ ((0 < length bytes.now) × (self.old.room ≤ length self.old.bytes))) }
        ensures count { IfOk result
            (λ k. k ≡ min (min (length bytes.now) (self.old.room - length self.old.bytes)) self.old.piece) }
        ensures calls { self.new.calls ≡ raised self.old.calls }
        ensures faults { CountsFault self.old.faults self.new.faults result }
        ensures failing { self.new.failing ≡ self.old.failing }
        ensures room { self.new.room ≡ self.old.room }
        ensures piece { self.new.piece ≡ self.old.piece }
    {
        let told = self.plan.begin();
        let free = self.room - self.bytes.len();
        if told || (free == 0 && !bytes.is_empty()) {
            self.plan.fail();
            return Err(Failed);
        }
        let count = bytes.len().min(free).min(self.piece);
        self.bytes.extend_from_slice(&bytes[..count]).unwrap();
        Ok(count)
    }
}
