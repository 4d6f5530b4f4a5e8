//! The numbered calls of a source or a sink in memory.
ghost use Rattle.std.specs.Prelude.{◌≡◌, ◌≤◌, ◌↔◌, IsTrue, Contains};

use crate::Failed;
use std::marker::Model;

/// Counts calls from 1, knows which are to fail, and counts those that failed.
#[derive(Drop)]
pub(crate) struct CallCounter {
    made: u64,
    failing: Vec<u64>,
    faults: u64,
}

impl Model for CallCounter {
    ghost use Rattle.rip_ports.specs.Calls.{Calls};

    ghost Value = { Calls };

    ghost view = { λ c. record { made = c.made; failing = c.failing.items; faults = c.faults } };
}

impl CallCounter {
    ghost use Rattle.rip_ports.specs.Ports.{raised};
    ghost use Rattle.rip_ports.specs.Calls.{IsNextListed, after_success};

    pub(crate) fn new(failing: Vec<u64>) -> CallCounter
        ensures { result ≡ record { made = 0; failing = failing.items; faults = 0 } }
    {
        CallCounter {
            made: 0,
            failing,
            faults: 0,
        }
    }

    /// Counts one more call, and tells whether it is to fail.
    pub(crate) fn count_call(&mut self) -> bool
        ensures listed { IsTrue result ↔ IsNextListed self.old }
        ensures counted { self.new ≡ after_success self.old }
    {
        self.made = self.made.saturating_add(1);
        is_listed(&self.failing, self.made)
    }

    /// Counts one more failure.
    pub(crate) fn fault(&mut self) -> Failed
        ensures counted { self.new ≡ record self.old { faults = raised self.old.faults } }
        ensures rises { self.old.faults ≤ self.new.faults }
    {
        self.faults = self.faults.saturating_add(1);
        Failed
    }
}

fn is_listed(numbers: &[u64], number: u64) -> bool
    ensures { IsTrue result ↔ Contains numbers.now number }
{
    numbers.contains(&number)
}
