//! A source in memory, some of whose calls fail.
ghost use Rattle.std.specs.Prelude.{◌≡◌, ℕ, ◌≤◌, List, Some, min, length, IfOk, OnOk, OnErr, is_err};
ghost use Rattle.std.specs.Io.{ReadsAtMost};
ghost use Rattle.std.specs.Io.KnownBytes.{ReadConsumes};
ghost use Rattle.xs_base.specs.Faults.{NeverFalls, Rose};
ghost use Rattle.xs_base.specs.MemSource.{SourceState};
ghost use Rattle.xs_base.specs.Tally.{is_due, after_call};

use crate::call_tally::CallTally;
use crate::{Bytes, Calls, Failed, Source, SureSource};
use std::marker::Model;

/// Bytes in memory for tests. The reads of stated numbers fail.
#[derive(Debug, Drop)]
pub struct MemSource {
    source: SureSource,
    tally: CallTally,
}

impl Model for MemSource {
    ghost Value = { SourceState };

    ghost view = { λ source. record { left = source.source; tally = source.tally } };
}

impl MemSource {
    /// A source of these bytes. The reads of these numbers fail, counted from 0.
    pub fn new(bytes: Bytes, fails: Calls) -> MemSource
        ensures { result ≡ record { left = bytes; tally = record { fails = fails; calls = 0; faults = 0 } } }
    {
        MemSource {
            source: SureSource::new(bytes),
            tally: CallTally::new(fails),
        }
    }
}

impl Source for MemSource {
    ghost left = { λ source. Some source.left };

    ghost faults = { λ source. source.tally.faults };

    /// Fails where its number is on the list, and else gives as many bytes as are left and as `into` has room for.
    fn read(&mut self, into: &mut [u8]) -> Result<usize, Failed>
        ensures bound { ReadsAtMost result into.new }
        ensures bytes { ReadConsumes (Some self.old.left) (Some self.new.left) result into.new }
        ensures counts { NeverFalls self.old.tally.faults self.new.tally.faults }
        ensures failed { OnErr result (Rose self.old.tally.faults self.new.tally.faults) }
        ensures due { is_err result ≡ is_due self.old.tally }
        ensures most { IfOk result (λ n. n ≡ min (length into.new) (length self.old.left)) }
        ensures tallies { self.new.tally ≡ after_call self.old.tally (is_err result) }
    {
        let due = self.tally.is_due();
        self.tally.count(due);
        if due {
            return Err(Failed);
        }
        self.source.read(into)
    }
}
