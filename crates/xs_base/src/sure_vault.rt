//! A vault in memory that never fails.
ghost use Rattle.std.specs.Prelude.{◌≡◌, ℕ, true, List, [], ◌∷◌, Some, refl};
ghost use Rattle.xs_base.specs.Vault.{last_put};

use crate::told::Told;
use crate::{Bytes, Vault, VaultErr};
use std::alloc::Global;

/// Keeps the string that was put last. The lists of what was put and given are proof data.
#[derive(Debug, Drop)]
pub struct SureVault {
    last: Bytes,
    alloc: Global,
    put: Told,
    given: Told,
    ghost keeps_last: { last ≡ last_put put.strings },
}

impl SureVault {
    /// A vault into which nothing was put. It takes no memory.
    pub fn new(alloc: Global) -> SureVault
        ensures puts { ⟦<SureVault as Vault>⟧.puts result ≡ Some [] }
        ensures gets { ⟦<SureVault as Vault>⟧.gets result ≡ Some [] }
    {
        SureVault {
            last: Bytes::new(alloc),
            alloc,
            put: Told::new(),
            given: Told::new(),
        }
    }
}

impl Vault for SureVault {
    ghost puts = { λ vault. Some vault.put.strings };

    ghost gets = { λ vault. Some vault.given.strings };

    ghost faults = { λ _. 0 };

    ghost honest = { λ _. true };

    ghost tells = { λ _ _. (refl, refl) };

    /// Keeps a copy. O(number of bytes).
    fn put(&mut self, bytes: &[u8]) -> Result<(), VaultErr> {
        let copied = Bytes::copy(self.alloc, bytes)?;
        self.last = copied;
        self.put.note(bytes);
        Ok(())
    }

    /// Gives a copy. O(number of bytes).
    fn get(&mut self) -> Result<Bytes, VaultErr> {
        let copied = Bytes::copy(self.alloc, self.last.as_slice())?;
        self.given.note(copied.as_slice());
        Ok(copied)
    }
}
