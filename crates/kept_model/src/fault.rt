//! Why bytes tell no state.

use stream_model::StreamFault;
use thiserror::Error;

/// Why bytes tell no state: the first fault of the stream, or else the first fault of the first record at fault, `rec` being
/// the record's number, counted from 0. The faults and their order are this project's own.
#[derive(Clone, Copy, Debug, PartialEq, Eq, Error)]
pub enum LoadFault {
    /// The bytes are no migration stream.
    #[error("{0}")]
    Stream(StreamFault),
    /// A connection has the id 0, an unknown kind, a domid or a target that no domain has, or too many bytes that were
    /// read, or it is the socket behind the last one that is accepted; or a transaction has the number 0.
    #[error("record {rec} has a connection or transaction that cannot be")]
    BadSpec { rec: usize },
    /// The bytes to be sent are too many, or behind the rest they are no whole messages.
    #[error("record {rec} has bytes to be sent that are no messages")]
    BadOut { rec: usize },
    /// A text does not end in its only NUL, or a token is too long.
    #[error("record {rec} has a text that is none")]
    BadText { rec: usize },
    /// A path that the connection may not watch, or a node's path that is not an absolute one.
    #[error("record {rec} has a path that is none")]
    BadPath { rec: usize },
    /// A node has no entries where it must have some, a value where there is no node, or an unknown access.
    #[error("record {rec} has a node or an access that cannot be")]
    BadAccess { rec: usize },
    /// An entry has an unknown letter or flag.
    #[error("record {rec} has an entry that is none")]
    BadPerm { rec: usize },
    /// What the record tells was told before.
    #[error("record {rec} repeats another")]
    Repeated { rec: usize },
    /// The connection of the record has not come.
    #[error("record {rec} is of an unknown connection")]
    UnknownConn { rec: usize },
    /// The transaction of the record has not come.
    #[error("record {rec} is of an unknown transaction")]
    UnknownTxn { rec: usize },
    /// The parent of a node has not come; or where a transaction leaves its path, a node has no parent.
    #[error("record {rec} leaves a node without its parent")]
    Orphan { rec: usize },
    /// No memory was found for the state.
    #[error("out of memory")]
    NoMemory,
}
