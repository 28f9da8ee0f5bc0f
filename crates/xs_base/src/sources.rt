//! Where bytes come from.
ghost use Rattle.std.specs.Prelude.{ℕ, List, Option, OnErr};
ghost use Rattle.std.specs.Io.{ReadsAtMost};
ghost use Rattle.std.specs.Io.KnownBytes.{ReadConsumes};
ghost use Rattle.xs_base.specs.Faults.{NeverFalls, Rose};

use crate::Failed;

/// Where bytes come from, in order, until there are no more.
pub trait Source {
    /// The bytes still to come, where the source tells them.
    ghost left: { Self → Option (List ℕ) };

    /// The count of calls that failed.
    ghost faults: { Self → ℕ };

    /// Moves the first bytes that are still to come to the front of `into`, and says how many. `Ok(0)` for an
    /// `into` that is not empty is the end. After a fault the bytes still to come are those before.
    fn read(&mut self, into: &mut [u8]) -> Result<usize, Failed>
        ensures bound { ReadsAtMost result into.new }
        ensures bytes { ReadConsumes (left self.old) (left self.new) result into.new }
        ensures counts { NeverFalls (faults self.old) (faults self.new) }
        ensures failed { OnErr result (Rose (faults self.old) (faults self.new)) };
}
