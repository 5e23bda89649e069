//! Which calls of an object in memory are to fail.
ghost use Rattle.std.specs.Prelude.{◌≡◌, ◌≤◌, IsTrue, ◌↔◌};
ghost use Rattle.std.specs.Bool.{OnTrue, OnFalse};
ghost use Rattle.afl_outside.specs.Counts.{risen};
ghost use Rattle.afl_outside.specs.Turns.{no_turns, IsListed, passed, failed};

use cell_values::List;
use std::marker::Model;

/// The numbers of the calls that are to fail, and the counts of calls and of faults.
#[derive(Drop)]
pub(crate) struct FailingCalls {
    fails: List<u64>,
    calls: u64,
    faults: u64,
}

impl Model for FailingCalls {
    ghost use Rattle.afl_outside.specs.Turns.{Turns};

    ghost Value = { Turns };

    ghost view = { λ t. record { fails = t.fails; calls = t.calls; faults = t.faults } };
}

impl FailingCalls {
    pub(crate) fn new(fails: List<u64>) -> FailingCalls
        ensures { result ≡ no_turns fails }
    {
        FailingCalls {
            fails,
            calls: 0,
            faults: 0,
        }
    }

    /// Whether the next call is one that is to fail.
    fn lists_next(&self) -> bool
        ensures { IsTrue result ↔ IsListed self.now }
    {
        self.fails.as_slice().contains(&self.calls)
    }

    /// Counts a call, and says whether it is to fail.
    pub(crate) fn fails_next(&mut self) -> bool
        ensures listed { IsTrue result ↔ IsListed self.old }
        ensures failed { OnTrue result (self.new ≡ failed self.old) }
        ensures later { self.old.faults ≤ self.new.faults }
        ensures passed { OnFalse result (self.new ≡ passed self.old) }
    {
        let is_listed = self.lists_next();
        self.calls = self.calls.saturating_add(1);
        if is_listed {
            self.faults = self.faults.saturating_add(1);
        }
        is_listed
    }

    /// Counts the call that was last counted as a fault.
    pub(crate) fn fault(&mut self)
        ensures faults { self.new ≡ record self.old { faults = risen self.old.faults } }
        ensures later { self.old.faults ≤ self.new.faults }
    {
        self.faults = self.faults.saturating_add(1);
    }

    pub(crate) fn faults(&self) -> u64
        ensures { result ≡ self.now.faults }
    {
        self.faults
    }
}
