//! A record of a migration stream.

use stream_model::RawPerm;
use xs_base::{Bytes, Items};

/// A record of a migration stream, version 1. What each kind stands for is in `docs/STREAM.md`.
///
/// A text (`wpath`, `token`, `path`) is the bytes as they stand, the NUL that its length counts included. The
/// pads, the surplus of a body and the padding are in no field.
#[derive(Debug, Drop)]
pub enum Record {
    /// GLOBAL_DATA: file descriptors of the daemon, -1 where it has none.
    Global {
        rw_socket_fd: i32,
        evtchn_fd: i32,
    },
    /// CONNECTION_DATA: kind 0 is a ring and 1 a socket, which `spec` tells more of. `inbox` is the request
    /// bytes that were read, `unsent` the reply bytes that are not sent, the first `rest` of which end a message
    /// of which a part was sent.
    Connection {
        conn: u32,
        kind: u16,
        spec: [u8; 8],
        rest: u32,
        inbox: Bytes,
        unsent: Bytes,
    },
    /// WATCH_DATA: a watch of a connection.
    Watch {
        conn: u32,
        wpath: Bytes,
        token: Bytes,
    },
    /// TRANSACTION_DATA: an open transaction of a connection, and how many commands it has run; 0 where the record
    /// does not say so.
    Transaction {
        conn: u32,
        tx: u32,
        count: u32,
    },
    /// NODE_DATA: a node of the store where `conn` is 0, else what a transaction did at a path.
    Node {
        conn: u32,
        tx: u32,
        access: u16,
        perms: RawPerms,
        path: Bytes,
        value: Bytes,
    },
    /// END: the last record.
    End,
}

/// The permission entries of a node, in order.
pub type RawPerms = Items<RawPerm>;

/// The records of a stream, in order.
pub type Records = Items<Record>;
