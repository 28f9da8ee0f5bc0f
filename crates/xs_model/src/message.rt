//! Headers, message types and the names of errors (xs_wire.h).

/// The head of a message, 16 bytes on the wire: four numbers of 32 bits. This project writes them
/// little-endian on every machine.
#[derive(Clone, Copy, Debug, PartialEq, Eq)]
pub struct Header {
    /// The message type.
    pub kind: u32,
    /// The number by which the requester knows its reply.
    pub req_id: u32,
    /// The transaction, or 0 for none.
    pub tx_id: u32,
    /// The number of payload bytes that follow.
    pub len: u32,
}

/// Message types (xs_wire.h).
pub mod kind {
    pub const DIRECTORY: u32 = 1;

    pub const READ: u32 = 2;

    pub const GET_PERMS: u32 = 3;

    pub const WATCH: u32 = 4;

    pub const UNWATCH: u32 = 5;

    pub const TRANSACTION_START: u32 = 6;

    pub const TRANSACTION_END: u32 = 7;

    pub const INTRODUCE: u32 = 8;

    pub const RELEASE: u32 = 9;

    pub const GET_DOMAIN_PATH: u32 = 10;

    pub const WRITE: u32 = 11;

    pub const MKDIR: u32 = 12;

    pub const RM: u32 = 13;

    pub const SET_PERMS: u32 = 14;

    pub const WATCH_EVENT: u32 = 15;

    pub const ERROR: u32 = 16;

    pub const IS_DOMAIN_INTRODUCED: u32 = 17;

    pub const SET_TARGET: u32 = 19;

    pub const RESET_WATCHES: u32 = 21;

    pub const DIRECTORY_PART: u32 = 22;
}

/// The bytes of a header (xs_wire.h).
pub const HEADER_SIZE: usize = 16;

/// Payload bytes that a message may have at the most (xs_wire.h, XENSTORE_PAYLOAD_MAX).
pub const PAYLOAD_MAX: usize = 4096;

/// The bytes of the longest message: a header and the longest payload.
pub const MESSAGE_MAX: usize = HEADER_SIZE + PAYLOAD_MAX;

/// Errors that a refusal names (xs_wire.h).
#[derive(Clone, Copy, Debug, PartialEq, Eq)]
pub enum WireErr {
    Einval,
    Eacces,
    Eexist,
    Enoent,
    Enospc,
    Ebusy,
    Eagain,
    E2big,
    Enosys,
}

impl WireErr {
    ghost use Rattle.std.specs.Prelude.{◌≡◌};
    ghost use Rattle.xs_model.specs.Messages.{error_name};

    /// The name on the wire, without the NUL that ends it there.
    pub const fn text(self) -> &'static [u8]
        ensures { result.now ≡ error_name self }
    {
        match self {
            WireErr::Einval => b"EINVAL",
            WireErr::Eacces => b"EACCES",
            WireErr::Eexist => b"EEXIST",
            WireErr::Enoent => b"ENOENT",
            WireErr::Enospc => b"ENOSPC",
            WireErr::Ebusy => b"EBUSY",
            WireErr::Eagain => b"EAGAIN",
            WireErr::E2big => b"E2BIG",
            WireErr::Enosys => b"ENOSYS",
        }
    }
}
