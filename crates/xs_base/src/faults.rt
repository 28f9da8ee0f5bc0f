//! Why a call on an end fails.
ghost use Rattle.std.specs.Prelude.{◌≡◌};
ghost use Rattle.xs_base.specs.declared.faults.VaultErr.TheVariants.{NoMemory};

use std::alloc::AllocError;
use thiserror::Error;

/// A source or a sink failed. Its count of faults rose in that call.
#[derive(Clone, Copy, Debug, PartialEq, Eq, Error)]
#[error("the call failed")]
pub struct Failed;

/// Why a vault refused a call.
#[derive(Clone, Copy, Debug, PartialEq, Eq, Error)]
pub enum VaultErr {
    /// The vault failed. Its count of faults rose in that call.
    #[error("the vault failed")]
    Failed,
    /// No memory was found for the string.
    #[error("out of memory")]
    NoMemory,
}

impl From<AllocError> for VaultErr {
    ghost from_gives = { λ _ e. e ≡ NoMemory };

    fn from(_error: AllocError) -> VaultErr {
        VaultErr::NoMemory
    }
}
