//! Where bytes go.
ghost use Rattle.std.specs.Prelude.{ℕ, ◌<◌, List, Option, length, IfOk, OnErr};
ghost use Rattle.std.specs.Io.{WritesAtMost};
ghost use Rattle.std.specs.Io.KnownBytes.{WriteAppends};
ghost use Rattle.xs_base.specs.Faults.{NeverFalls, Rose};

use crate::Failed;

/// Where bytes go, in order.
pub trait Sink {
    /// The bytes written so far, where the sink tells them.
    ghost written: { Self → Option (List ℕ) };

    /// The count of calls that failed.
    ghost faults: { Self → ℕ };

    /// Appends the first bytes of `piece` to those written, and says how many: one or more, if there is one. After
    /// a fault the bytes written are those before. A sink that takes nothing of a piece is at fault.
    fn write(&mut self, piece: &[u8]) -> Result<usize, Failed>
        ensures bound { WritesAtMost result piece.now }
        ensures takes { IfOk result (λ n. 0 < length piece.now → 0 < n) }
        ensures bytes { WriteAppends (written self.old) (written self.new) result piece.now }
        ensures counts { NeverFalls (faults self.old) (faults self.new) }
        ensures failed { OnErr result (Rose (faults self.old) (faults self.new)) };
}
