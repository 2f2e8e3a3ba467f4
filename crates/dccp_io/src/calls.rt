//! Calls, of which chosen ones fail.
ghost use Rattle.std.specs.Prelude.{◌≡◌, IsTrue};
ghost use Rattle.dccp_io.specs.Counts.{Rose};
ghost use Rattle.dccp_io.specs.Memory.{is_failing_call, next_fails, counted_call};

use std::marker::Model;

// The calls of a source or a sink in memory: which of them fail, and how many there were.
#[derive(Drop)]
pub(crate) struct CallCount {
    failing: Vec<u64>,
    made: u64,
    faults: u64,
}

impl Model for CallCount {
    ghost use Rattle.dccp_io.specs.Memory.{Calls};

    ghost Value = { Calls };

    ghost view = { λ c. record { failing = c.failing.items; made = c.made; faults = c.faults } };
}

// Whether the call with this number fails.
fn is_failing_call(failing: &[u64], number: u64) -> bool
    ensures { result ≡ is_failing_call failing.now number }
{
    failing.contains(&number)
}

impl CallCount {
    // A count before any call.
    pub(crate) fn new(failing: Vec<u64>) -> CallCount
        ensures { result ≡ record { failing = failing.items; made = 0; faults = 0 } }
    {
        CallCount {
            failing,
            made: 0,
            faults: 0,
        }
    }

    // How many calls failed.
    pub(crate) fn faults(&self) -> u64
        ensures { result ≡ self.now.faults }
    {
        self.faults
    }

    // Counts a call. True exactly if it is one that fails.
    pub(crate) fn count(&mut self) -> bool
        ensures answer { result ≡ next_fails self.old }
        ensures after { self.new ≡ counted_call self.old }
        ensures cause { IsTrue result → Rose self.old.faults self.new.faults }
    {
        let Some(number) = self.made.checked_add(1) else {
            return false;
        };
        self.made = number;
        let fails = is_failing_call(&self.failing, number);
        if fails {
            self.faults = self.faults.saturating_add(1);
        }
        fails
    }
}
