//! Counted calls, of which some are to fail.

ghost use Rattle.std.specs.Prelude.{◌≡◌};
ghost use Rattle.xk_ports.specs.Calls.{no_calls, is_next_to_fail, called, one_more};

use std::marker::Model;

/// The calls of an object in memory: how many were made, and the numbers of those that are to fail.
#[derive(Debug, Drop)]
pub(crate) struct Calls {
    fails: Vec<u64>,
    made: u64,
    faults: u64,
}

impl Model for Calls {
    ghost use Rattle.xk_ports.specs.Calls.{CallsState};

    ghost Value = { CallsState };

    ghost view = { λ c. record { fails = c.fails.items; made = c.made; faults = c.faults } };
}

impl Calls {
    /// No call yet; the numbers of `fails` count calls from 1.
    pub(crate) fn new(fails: Vec<u64>) -> Calls
        ensures { result ≡ no_calls fails.items }
    {
        Calls {
            fails,
            made: 0,
            faults: 0,
        }
    }

    /// Counts a call, and answers whether it is one that is to fail.
    pub(crate) fn count(&mut self) -> bool
        ensures listed { result ≡ is_next_to_fail self.old }
        ensures counted { self.new ≡ called self.old }
    {
        self.made = self.made.saturating_add(1);
        self.fails.contains(&self.made)
    }

    /// Counts a fault of the last call.
    pub(crate) fn fault(&mut self)
        ensures { self.new ≡ record self.old { faults = one_more self.old.faults } }
    {
        self.faults = self.faults.saturating_add(1);
    }
}
