//! Permission entries and rights.

use thiserror::Error;

/// What an entry lets a domain do (xenstore.txt, "Permissions").
#[derive(Clone, Copy, Debug, PartialEq, Eq)]
pub enum Letter {
    /// Nothing.
    N,
    /// Read.
    R,
    /// Write.
    W,
    /// Read and write.
    B,
}

/// One permission entry of a node.
#[derive(Clone, Copy, Debug, PartialEq, Eq)]
pub struct Perm {
    pub letter: Letter,
    /// Whether the entry's domain is gone, so that it names nobody.
    pub stale: bool,
    pub domid: u16,
}

/// What a domain may do with a node.
#[derive(Clone, Copy, Debug, PartialEq, Eq)]
pub struct Rights {
    pub can_read: bool,
    pub can_write: bool,
    pub owner: bool,
}

/// Why a text is no permission entry: the first fault, in the order of the variants.
#[derive(Clone, Copy, Debug, PartialEq, Eq, Error)]
pub enum PermFault {
    /// The first byte is none of `w`, `r`, `b` and `n`.
    #[error("no letter of an entry")]
    BadLetter,
    /// What follows is no decimal number of at most 65535.
    #[error("no domain of an entry")]
    BadNumber,
}
