//! The world: the store, and for each domain the bytes that are under way to it and from it.
//!
//! A [`World`] plays one event at a time: a guest queues bytes, puts them into its request ring and takes them
//! from its reply ring; the server takes them in, answers the request in front and sends what is unsent. Each
//! step is the definition's event of the crate `world_model`, and says what it says. The ring page follows
//! xenstore-ring.txt; the events are this project's own. [`laws`] has what every run does for its guests.
//!
//! Domains come and go: a request that makes a ring connection gives its domain a fresh page and an empty inbox, and
//! one that removes it takes the inbox and leaves the page.
#![tactic(auto)]

mod guest;
mod outbox;
mod seats;
mod world;

pub use world::World;
pub use world_laws::laws;
pub use xs_base::NoMemory;
