//! The world of guests round the sequential store: ring pages, scripts and transcripts.
//!
//! The definitions are in `specs/`; `docs/DEFINITIONS.md` gives their reading order. This source has the
//! plain data types that both the definitions and the code of the crates above name.
#![tactic(auto)]

use thiserror::Error;

/// The four index words of a ring page (xenstore-ring.txt).
#[derive(Clone, Copy, Debug, PartialEq, Eq)]
pub enum Which {
    ReqCons,
    ReqProd,
    RspCons,
    RspProd,
}

/// What one event of the world answers. This project's own. Numbers of bytes count from 0.
#[derive(Clone, Copy, Debug, PartialEq, Eq)]
pub enum Said {
    /// The domain never had a page, or has no connection.
    Gone,
    /// So many bytes joined the guest's outbox.
    Queued(usize),
    /// The guest put so many bytes into its request ring.
    Put(usize),
    /// The inbox holds a whole message, or an overlong header, already.
    InFull,
    /// The connection was dropped for these indices.
    DroppedIndex {
        prod: u32,
        cons: u32,
    },
    /// The server took so many bytes from the request ring.
    Took(usize),
    /// There is no whole message yet.
    Part,
    /// The connection was dropped for a header with this length.
    DroppedLength {
        len: u32,
    },
    /// Too many bytes are unsent to take a request.
    Held {
        unsent: usize,
    },
    /// This request would leave too many bytes unsent for that connection.
    Crowded {
        conn: u32,
    },
    /// The request was taken and answered.
    Done,
    /// Nothing is unsent.
    NoneQueued,
    /// The reply ring has no free byte.
    NoSpace,
    /// The server put so many bytes into the reply ring.
    Sent(usize),
    /// The guest took so many bytes from its reply ring.
    Got(usize),
    /// The index word was overwritten.
    Poked,
    /// The four index words and the error word.
    Page {
        req_cons: u32,
        req_prod: u32,
        rsp_cons: u32,
        rsp_prod: u32,
        error: u32,
    },
    /// A new daemon serves.
    Handed,
    /// The old daemon serves on, since the vault failed.
    RefusedFault,
    /// The old daemon serves on, since the vault gave back other bytes: at this place, these two bytes,
    /// or none where a text had ended.
    RefusedChanged {
        at: usize,
        put: Option<u8>,
        got: Option<u8>,
    },
    /// No memory was found, and nothing changed.
    NoMemory,
}

/// What is wrong with a line of a script: the first fault, in the order of the variants, where those of
/// the fields count from the left. This project's own.
#[derive(Clone, Copy, Debug, PartialEq, Eq, Error)]
pub enum LineKind {
    #[error("no such verb")]
    Verb,
    #[error("a wrong number of fields")]
    Fields,
    #[error("no number in its bounds")]
    Number,
    #[error("no bytes in hexadecimal")]
    Hex,
    #[error("no such word")]
    Word,
    #[error("a line that may not stand here")]
    Place,
    #[error("domain 0 may not introduce or release here")]
    Admin,
}
