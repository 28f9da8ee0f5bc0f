//! Calls that fail by their number.
ghost use Rattle.std.specs.Prelude.{◌≡◌};
ghost use Rattle.xs_base.specs.Faults.{NeverFalls};
ghost use Rattle.xs_base.specs.Tally.{Tally, is_due, after_call};

use crate::Calls;
use std::marker::Model;

/// The calls on an end, some of which are to fail, and how many came and failed. Both counts stand still at the
/// greatest u64.
#[derive(Debug, Drop)]
pub(crate) struct CallTally {
    fails: Calls,
    calls: u64,
    faults: u64,
}

impl Model for CallTally {
    ghost Value = { Tally };

    ghost view = { λ tally. record { fails = tally.fails; calls = tally.calls; faults = tally.faults } };
}

impl CallTally {
    // No calls yet.
    pub(crate) fn new(fails: Calls) -> CallTally
        ensures { result ≡ record { fails = fails; calls = 0; faults = 0 } }
    {
        CallTally {
            fails,
            calls: 0,
            faults: 0,
        }
    }

    // How many calls came.
    pub(crate) fn calls(&self) -> u64
        ensures { result ≡ self.now.calls }
    {
        self.calls
    }

    // Whether the next call is to fail. O(number of calls that are).
    pub(crate) fn is_due(&self) -> bool
        ensures { result ≡ is_due self.now }
    {
        self.fails.as_slice().contains(&self.calls)
    }

    // Counts one call.
    pub(crate) fn count(&mut self, failed: bool)
        ensures after { self.new ≡ after_call self.old failed }
        ensures counts { NeverFalls self.old.faults self.new.faults }
    {
        self.calls = self.calls.saturating_add(1);
        if failed {
            self.faults = self.faults.saturating_add(1);
        }
    }
}
