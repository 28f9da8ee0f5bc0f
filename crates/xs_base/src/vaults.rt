//! Where an image is kept.
ghost use Rattle.std.specs.Prelude.{◌≡◌, ℕ, Bool, true, List, Option, IsSome, IfSome, IfOk, OnOk, OnErr};
ghost use Rattle.std.specs.Bool.{OnTrue};
ghost use Rattle.xs_base.specs.Faults.{NeverFalls, Rose};
ghost use Rattle.xs_base.specs.Vault.{Gains, Stays, last_put};

use crate::{Bytes, VaultErr};

/// Keeps byte strings and gives one back. What it gives is free, so damage on the way is covered.
pub trait Vault {
    /// The strings that were put, in order, where the vault tells them.
    ghost puts: { Self → Option (List (List ℕ)) };

    /// The strings that were given back, in order, where the vault tells them.
    ghost gets: { Self → Option (List (List ℕ)) };

    /// The count of calls that failed.
    ghost faults: { Self → ℕ };

    /// Whether it gives back what was put last.
    ghost honest: { Self → Bool };

    /// Keeps the bytes. Refused, it keeps what it kept.
    fn put(&mut self, bytes: &[u8]) -> Result<(), VaultErr>
        ensures ok { OnOk result (Gains (puts self.old) (puts self.new) bytes.now) }
        ensures err { OnErr result (Stays (puts self.old) (puts self.new)) }
        ensures gives_nothing { Stays (gets self.old) (gets self.new) }
        ensures stays_honest { honest self.new ≡ honest self.old }
        ensures counts { NeverFalls (faults self.old) (faults self.new) }
        ensures failed { result ≡ Err VaultErr.Failed → Rose (faults self.old) (faults self.new) };

    /// Gives a byte string back: an honest vault the one that was put last, or the empty one where none was.
    fn get(&mut self) -> Result<Bytes, VaultErr>
        ensures ok { IfOk result (Gains (gets self.old) (gets self.new)) }
        ensures err { OnErr result (Stays (gets self.old) (gets self.new)) }
        ensures last { OnTrue (honest self.old)
            (IfOk result (λ bytes. IfSome (puts self.old) (λ strings. bytes ≡ last_put strings))) }
        ensures keeps_all { Stays (puts self.old) (puts self.new) }
        ensures stays_honest { honest self.new ≡ honest self.old }
        ensures counts { NeverFalls (faults self.old) (faults self.new) }
        ensures failed { result ≡ Err VaultErr.Failed → Rose (faults self.old) (faults self.new) };

    /// An honest vault tells both lists.
    ghost tells: { (vault : Self) → honest vault ≡ true → IsSome (puts vault) × IsSome (gets vault) };
}
