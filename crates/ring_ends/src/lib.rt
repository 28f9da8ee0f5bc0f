//! The two ends of a ring of words: a producer that puts bytes, and a consumer that takes them.
//!
//! [`ring`] makes a ring with its ends. The table is shared by reference, and each end may go to a thread of its
//! own. Contracts see an end as its table and its view, which has what the end sent or read, what it saw of the
//! other end, and whether it poked. [`close_ring`] takes the ends back and gives the lists of what was sent and
//! what was got: while nobody poked, what was got begins what was sent.
//!
//! Indices are those of xenstore-ring.txt. An end keeps its own index and loads the other's, once a call. What an
//! end does after a poke is as safe as before it, and its own lists stay exact; what it finds is then only some
//! bytes and some indices.
//!
//! `put`, `room`, `take`, `note`, `noted` and `poke` take no memory and wait for nobody.
#![tactic(auto)]

mod closing;
mod consumer;
mod laws;
mod producer;
mod row;

pub use closing::{Lists, close_ring, ring};
pub use consumer::{Consumer, Take};
pub use laws::{ends_cross, put_after_room};
pub use producer::{Producer, Put};
pub use ring_words::{BadIndex, NoMemory, RingRule, RingTable, View};
pub use row::worked_row;
