//! A sink in memory with a bounded room, some of whose calls fail.
ghost use Rattle.std.specs.Prelude.{◌≡◌, ◌+◌, ◌<◌, ◌≤◌, [], Some, min, length, IfOk, OnErr, is_err, vec_len, vec_capacity};
ghost use Rattle.std.specs.Io.{WritesAtMost};
ghost use Rattle.std.specs.Io.KnownBytes.{WriteAppends};
ghost use Rattle.xs_base.specs.Faults.{NeverFalls, Rose};
ghost use Rattle.xs_base.specs.MemSink.{SinkState, write_fails};
ghost use Rattle.xs_base.specs.Tally.{after_call};

use crate::call_tally::CallTally;
use crate::{Calls, Failed, NoMemory, Sink};
use std::alloc::Global;
use std::marker::Model;

/// Room for bytes in memory for tests. The writes of stated numbers fail.
#[derive(Debug, Drop)]
pub struct MemSink {
    items: Vec<u8>,
    room: usize,
    tally: CallTally,
}

impl Model for MemSink {
    ghost Value = { SinkState };

    ghost view = { λ sink. record { written = sink.items.items; room = sink.room; tally = sink.tally } };

    ghost invariant = { λ sink. vec_len sink.items + sink.room ≤ vec_capacity sink.items };
}

impl MemSink {
    /// A sink that takes this many bytes, and takes its memory here. The writes of these numbers fail, counted
    /// from 0.
    pub fn new(alloc: Global, room: usize, fails: Calls) -> Result<MemSink, NoMemory>
        ensures { IfOk result (λ sink. sink ≡ record { written = []; room = room; tally = record { fails = fails; calls = 0; faults = 0 } }) }
    {
        Ok(MemSink {
            items: Vec::with_capacity(alloc, room)?,
            room,
            tally: CallTally::new(fails),
        })
    }

    /// The bytes that were written.
    pub fn bytes(&self) -> &[u8]
        ensures { result.now ≡ self.now.written }
    {
        self.items.as_slice()
    }
}

impl Sink for MemSink {
    ghost written = { λ sink. Some sink.written };

    ghost faults = { λ sink. sink.tally.faults };

    /// Fails where its number is on the list or no byte of the piece fits, and else takes what fits.
    fn write(&mut self, piece: &[u8]) -> Result<usize, Failed>
        ensures bound { WritesAtMost result piece.now }
        ensures takes { IfOk result (λ n. 0 < length piece.now → 0 < n) }
        ensures bytes { WriteAppends (Some self.old.written) (Some self.new.written) result piece.now }
        ensures counts { NeverFalls self.old.tally.faults self.new.tally.faults }
        ensures failed { OnErr result (Rose self.old.tally.faults self.new.tally.faults) }
        ensures due { is_err result ≡ write_fails self.old piece.now }
        ensures most { IfOk result (λ n. n ≡ min (length piece.now) self.old.room) }
        ensures room { IfOk result (λ n. self.new.room + n ≡ self.old.room) }
        ensures err { OnErr result (self.new.room ≡ self.old.room) }
        ensures tallies { self.new.tally ≡ after_call self.old.tally (is_err result) }
    {
        let full = self.room == 0 && !piece.is_empty();
        let failed = self.tally.is_due() || full;
        self.tally.count(failed);
        if failed {
            return Err(Failed);
        }
        let count = piece.len().min(self.room);
        self.items.extend_from_slice(&piece[..count]).unwrap();
        self.room -= count;
        Ok(count)
    }
}
