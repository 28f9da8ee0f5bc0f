//! A source in memory that never fails.
ghost use Rattle.std.specs.Prelude.{◌≡◌, ℕ, ◌≤◌, List, Some, min, length, take, drop, IsOk, IfOk, OnErr};
ghost use Rattle.std.specs.Io.{ReadsAtMost};
ghost use Rattle.std.specs.Io.KnownBytes.{ReadConsumes};
ghost use Rattle.xs_base.specs.Faults.{NeverFalls, Rose};

use crate::{Bytes, Failed, Source};
use std::marker::Model;

/// Bytes in memory, from the first that is still to come. Reading them never fails.
#[derive(Debug, Drop)]
pub struct SureSource {
    bytes: Bytes,
    at: usize,
}

impl Model for SureSource {
    ghost Value = { List ℕ };

    ghost view = { λ source. drop source.at source.bytes };

    ghost invariant = { λ source. source.at ≤ length source.bytes };
}

impl SureSource {
    /// A source of these bytes.
    pub fn new(bytes: Bytes) -> SureSource
        ensures { ⟦<SureSource as Source>⟧.left result ≡ Some bytes }
    {
        SureSource { bytes, at: 0 }
    }
}

impl Source for SureSource {
    ghost left = { λ source. Some source };

    ghost faults = { λ _. 0 };

    /// Gives as many bytes as are left and as `into` has room for.
    fn read(&mut self, into: &mut [u8]) -> Result<usize, Failed>
        ensures bound { ReadsAtMost result into.new }
        ensures bytes { ReadConsumes (Some self.old) (Some self.new) result into.new }
        ensures counts { NeverFalls 0 0 }
        ensures failed { OnErr result (Rose 0 0) }
        ensures sure { IsOk result }
        ensures most { IfOk result (λ n. n ≡ min (length into.new) (length self.old)) }
    {
        let count = copy_front(&self.bytes.as_slice()[self.at..], into);
        self.at += count;
        Ok(count)
    }
}

// Copies as many bytes as are there and as fit, and says how many.
fn copy_front(from: &[u8], into: &mut [u8]) -> usize
    ensures count { result ≡ min (length into.new) (length from.now) }
    ensures bytes { take result into.new ≡ take result from.now }
{
    let count = into.len().min(from.len());
    into[..count].copy_from_slice(&from[..count]);
    count
}
