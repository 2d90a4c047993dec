ghost use Rattle.std.specs.Prelude.{◌≡◌, ◌+◌, ◌≤◌, ◌↔◌, min, length, IfOk, IsErr, Some, ⊤};
ghost use Rattle.std.specs.Io.{ReadsAtMost};
ghost use Rattle.std.specs.Io.KnownBytes.{ReadConsumes};
ghost use Rattle.om_port.specs.Causes.{HasCause, CountsFault, raised};
ghost use Rattle.om_port.specs.Calls.{IsListed};

use super::failed::Failed;
use super::plan::Plan;
use super::source::Source;
use om_signs::List;
use std::marker::Model;

/// Bytes in memory, given in pieces. Calls fail at given numbers.
#[derive(Drop)]
pub struct MemSource {
    bytes: Vec<u8>,
    at: usize,
    piece: usize,
    plan: Plan,
}

impl Model for MemSource {
    ghost use Rattle.std.specs.Prelude.{drop, length, ◌≤◌};
    ghost use Rattle.om_port.specs.Feed.{Feed};

    ghost Value = { Feed };

    ghost view = { λ s. record {
      bytes = drop s.at s.bytes.items;
      piece = s.piece;
      failing = s.plan.failing;
      calls =
          s.plan.calls;
      faults = s.plan.faults;
    } };

    ghost invariant = { λ s. (1 ≤ s.piece) × (s.at ≤ length s.bytes.items) };
}

impl MemSource {
    /// A source of these bytes, which gives at most `piece` of them in a call, and fails exactly at the calls whose
    /// numbers, counted from 1, are in `failing`. `piece` is at least 1. No list contains a call after number
    /// 4,294,967,295.
    pub fn new(bytes: Vec<u8>, piece: usize, failing: List<u32>) -> MemSource
        requires { 1 ≤ piece }
        ensures { result ≡ record { bytes = bytes.items; piece = piece; failing = failing; calls = 0; faults = 0 } }
    {
        MemSource {
            bytes,
            at: 0,
            piece,
            plan: Plan::new(failing),
        }
    }
}

impl Source for MemSource {
    ghost left = { λ s. Some s.bytes };

    ghost faults = { λ s. s.faults };

    ghost ready = { λ _. ⊤ };

    fn read(&mut self, buf: &mut [u8]) -> Result<usize, Failed>
        ensures bound { ReadsAtMost result buf.new }
        ensures bytes { ReadConsumes (Some self.old.bytes) (Some self.new.bytes) result buf.new }
        ensures cause { HasCause self.old.faults self.new.faults result }
        ensures told { IsErr result ↔ IsListed self.old.failing (self.old.calls + 1) }
        ensures count { IfOk result (λ k. k ≡ min (min (length self.old.bytes) (length buf.new)) self.old.piece) }
        ensures calls { self.new.calls ≡ raised self.old.calls }
        ensures faults { CountsFault self.old.faults self.new.faults result }
        ensures failing { self.new.failing ≡ self.old.failing }
        ensures piece { self.new.piece ≡ self.old.piece }
    {
        if self.plan.begin() {
            self.plan.fail();
            return Err(Failed);
        }
        let rest = &self.bytes.as_slice()[self.at..];
        let count = rest.len().min(buf.len()).min(self.piece);
        buf[..count].copy_from_slice(&rest[..count]);
        self.at += count;
        Ok(count)
    }
}
