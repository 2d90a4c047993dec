ghost use Rattle.std.specs.Prelude.{◌≡◌, ◌+◌, ◌≤◌, ◌↔◌, IsTrue};
ghost use Rattle.om_port.specs.Causes.{raised};
ghost use Rattle.om_port.specs.Calls.{IsListed};

use om_signs::List;

/// The calls of an object in memory: which are to fail, how many there were, and how many failed.
#[derive(Drop)]
pub struct Plan {
    pub failing: List<u32>,
    pub calls: u64,
    pub faults: u64,
}

impl Plan {
    /// The plan before any call. The calls with these numbers, counted from 1, are to fail.
    pub fn new(failing: List<u32>) -> Plan
        ensures { result ≡ record { failing = failing; calls = 0; faults = 0 } }
    {
        Plan {
            failing,
            calls: 0,
            faults: 0,
        }
    }

    /// Counts a call, and returns whether it is in the list. A call after number 4,294,967,295 is in no list.
    pub fn begin(&mut self) -> bool
        ensures told { IsTrue result ↔ IsListed self.old.failing (self.old.calls + 1) }
        ensures plan { self.new ≡ record self.old { calls = raised self.old.calls } }
    {
        self.calls = self.calls.saturating_add(1);
        match u32::try_from(self.calls) {
            Ok(number) => self.failing.as_slice().contains(&number),
            Err(_) => false,
        }
    }

    /// Counts a fault.
    pub fn fail(&mut self)
        ensures plan { self.new ≡ record self.old { faults = raised self.old.faults } }
        ensures later { self.old.faults ≤ raised self.old.faults }
    {
        self.faults = self.faults.saturating_add(1);
    }
}
