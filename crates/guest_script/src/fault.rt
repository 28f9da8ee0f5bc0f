//! Why a text is no script.

use std::alloc::{AllocError, AllocFailed};
use thiserror::Error;
use world_model::LineKind;

/// Why no script was read.
#[derive(Clone, Copy, Debug, PartialEq, Eq, Error)]
pub enum ScriptFault {
    /// The first faulty line, counted from 1 with empty lines and comments, and its first fault.
    #[error("line {line}: {kind}")]
    Line { line: usize, kind: LineKind },
    /// No memory was found for the script.
    #[error("out of memory")]
    NoMemory,
}

/// Why a line was not read.
#[derive(Clone, Copy, Debug, PartialEq, Eq, Error)]
pub enum LineFault {
    /// The line's first fault.
    #[error("{0}")]
    Kind(LineKind),
    /// No memory was found for what it holds.
    #[error("out of memory")]
    NoMemory,
}

impl From<LineKind> for LineFault {
    ghost use Rattle.std.specs.Prelude.{◌≡◌};
    ghost use Rattle.guest_script.specs.declared.fault.LineFault.TheVariants.{Kind};

    ghost from_gives = { λ kind e. e ≡ Kind kind };

    fn from(kind: LineKind) -> LineFault {
        LineFault::Kind(kind)
    }
}

impl From<AllocError> for LineFault {
    ghost use Rattle.std.specs.Prelude.{◌≡◌};
    ghost use Rattle.guest_script.specs.declared.fault.LineFault.TheVariants.{NoMemory};

    ghost from_gives = { λ _ e. e ≡ NoMemory };

    fn from(_error: AllocError) -> LineFault {
        LineFault::NoMemory
    }
}

impl<T: Drop> From<AllocFailed<T>> for LineFault {
    ghost use Rattle.std.specs.Prelude.{◌≡◌};
    ghost use Rattle.guest_script.specs.declared.fault.LineFault.TheVariants.{NoMemory};

    ghost from_gives = { λ _ e. e ≡ NoMemory };

    fn from(_error: AllocFailed<T>) -> LineFault {
        LineFault::NoMemory
    }
}
