//! What a script is made of: head lines and events.

use world_model::Which;
use xs_base::{Bytes, Items};

/// One event of a run. A domain is named by its domid, at most 32751; bytes are counted.
#[derive(Debug, PartialEq, Eq, Drop)]
pub enum Event {
    /// The bytes join the guest's outbox.
    Send {
        domid: u16,
        bytes: Bytes,
    },
    /// The guest puts at most so many bytes into its request ring.
    Put {
        domid: u16,
        max: u32,
    },
    /// The server takes at most so many bytes from the request ring.
    Intake {
        domid: u16,
        max: u32,
    },
    /// The server answers the request in front.
    Do {
        domid: u16,
    },
    /// The server puts at most so many bytes into the reply ring.
    Out {
        domid: u16,
        max: u32,
    },
    /// The guest takes at most so many bytes from its reply ring.
    Take {
        domid: u16,
        max: u32,
    },
    /// An index word of the page is overwritten.
    Poke {
        domid: u16,
        which: Which,
        value: u32,
    },
    /// The index words and the error word are shown.
    Page {
        domid: u16,
    },
    /// A new daemon takes over.
    Handover,
}

/// A head line `domain D at I`: the domain's page starts at this index.
#[derive(Clone, Copy, Debug, PartialEq, Eq)]
pub struct DomainLine {
    pub domid: u16,
    pub start: u32,
}

/// Events in their order.
pub type Events = Items<Event>;

/// Head lines `domain` in their order.
pub type DomainLines = Items<DomainLine>;
