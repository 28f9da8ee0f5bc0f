//! The sequential store: connections, transactions, and what one request does to all of them.
//!
//! The definitions are in `specs/`; `docs/DEFINITIONS.md` gives their reading order. This source has the
//! plain data types that both the definitions and the code of the crates above name.
#![tactic(auto)]

mod bounds;
pub mod laws;

pub use bounds::{CONTROL_TRANSACTIONS, CROWD_LIMIT, GUEST_TRANSACTIONS, HELD_LIMIT, WATCH_LIMIT};

/// What stands at the other end of a connection.
#[derive(Clone, Copy, Debug, PartialEq, Eq)]
pub enum ConnSpec {
    /// A domain, by the ring page that it shares with the store.
    Ring {
        /// The domain, at most 32751.
        domid: u16,
        /// The domain that it stands for besides itself (SET_TARGET), if any.
        target: Option<u16>,
        /// Its event channel.
        evtchn: u32,
    },
    /// A process of domain 0, by an open socket. It has the rights of domain 0.
    Socket {
        fd: u32,
    },
}

/// The two descriptors that belong to the whole store and not to a connection, -1 where there is none
/// (xenstore-migration.md, GLOBAL_DATA).
#[derive(Clone, Copy, Debug, PartialEq, Eq)]
pub struct Globals {
    /// The socket on which processes of domain 0 connect.
    pub rw_socket_fd: i32,
    /// The event channel device.
    pub evtchn_fd: i32,
}
