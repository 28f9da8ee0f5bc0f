//! Why bytes are no migration stream.

ghost use Rattle.std.specs.Prelude.{◌≡◌};
ghost use Rattle.stream_model.specs.declared.fault.StreamFault.TheVariants.{NoMemory};

use std::alloc::AllocError;
use thiserror::Error;

/// The first fault of bytes that are no migration stream of version 1. Places are byte offsets from the
/// beginning of the stream. The layouts and the order of the faults are this project's own.
#[derive(Clone, Copy, Debug, PartialEq, Eq, Error)]
pub enum StreamFault {
    /// There are fewer than eight bytes, or the first eight are not `xenstore`.
    #[error("not a migration stream")]
    BadIdent,
    /// The bytes end at or inside the record that begins here, its padding included; 0 stands for the
    /// stream's header.
    #[error("the record at byte {at} is cut")]
    Cut { at: usize },
    /// The version is not 1.
    #[error("version {0} is not served")]
    BadVersion(u32),
    /// One of the four flags bytes is not 0.
    #[error("a flags byte is not 0")]
    BadFlags,
    /// The record that begins here has a type above 5.
    #[error("the record at byte {at} has the unknown type {kind}")]
    UnknownType { at: usize, kind: u32 },
    /// The body of the record that begins here has `len` bytes, where its fields need `need`, and up to
    /// seven more are let pass. Where `len` is below the fixed part of the body, `need` is that part.
    #[error("the record at byte {at} has {len} bytes and needs {need}")]
    BadLength { at: usize, need: u64, len: u32 },
    /// Bytes follow the END record; the first of them stands here.
    #[error("bytes follow the end of the stream at byte {at}")]
    AfterEnd { at: usize },
    /// No memory was found for the records.
    #[error("out of memory")]
    NoMemory,
}

impl From<AllocError> for StreamFault {
    ghost from_gives = { λ _ e. e ≡ NoMemory };

    fn from(_error: AllocError) -> StreamFault {
        StreamFault::NoMemory
    }
}
