//! What comes of a handover.

use crate::change::Change;
use daemon::Daemon;
use msg_reassembly::Ins;

/// Why the old store goes on.
#[derive(Clone, Copy, Debug, PartialEq, Eq)]
pub enum Refusal {
    /// The vault refused the image, or gave none back.
    VaultFault,
    /// It gave other bytes back.
    Changed(Change),
    /// No memory was found.
    NoMemory,
}

/// The store that goes on, with the bytes that were read from its connections.
#[derive(Drop)]
pub enum Handed {
    /// A new one, in the state of the old one.
    New(Daemon, Ins),
    /// The old one, as it was.
    Kept(Daemon, Ins, Refusal),
}
