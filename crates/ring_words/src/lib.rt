//! The rule of a ring of words, which a producer and a consumer share by single atomic loads and stores.
//!
//! A ring is a table of 1027 words: 1024 bytes, one a word, then PROD, CONS and NOTE. Each end has a seat at
//! the table, with a view of what it did and found. The rule says what the words and the two views have to do
//! with one another, and each step keeps it: the producer loads CONS, stores a byte, stores PROD or stores NOTE,
//! the consumer loads PROD, loads a byte, stores CONS or loads NOTE, and either end may poke: it stores any
//! number into PROD or CONS.
//!
//! Indices are those of xenstore-ring.txt: they run freely as numbers of 32 bits and name a byte by their value
//! modulo 1024. One byte a word, the word NOTE and the views are this project's own. Each step is sequentially
//! consistent, takes no memory and waits for nobody.
#![tactic(auto)]

mod consumer_steps;
mod either_step;
mod index;
mod plays;
mod producer_steps;
mod rule;
mod seats;
mod view;

pub use consumer_steps::{hear, load_byte, load_prod, store_cons};
pub use either_step::poke;
pub use index::{BadIndex, RING_SIZE, used};
pub use producer_steps::{load_cons, note, stage_byte, store_prod};
pub use rule::{RingRule, RingTable, Seat};
pub use seats::{open, shut};
pub use std::alloc::AllocError as NoMemory;
pub use view::{Role, View};
