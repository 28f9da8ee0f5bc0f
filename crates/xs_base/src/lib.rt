//! What every other crate of this repository stands on: lists of bytes and of items, numbers and bytes in a
//! text, and the ends where bytes come from and go to.
//!
//! - [`Bytes`] and [`Items`] are lists that grow at their end, and contracts see them as lists. A [`ByteQueue`] is
//!   taken from at its front too, and contracts see what memory it keeps.
//! - [`read_hex`], [`push_hex`], [`read_decimal`] and [`push_decimal`] read and write by the definitions of the
//!   crate `text_model`; [`laws`] has that reading undoes writing.
//! - A [`Source`], a [`Sink`] and a [`Vault`] are what a program works on. A contract speaks of the bytes that
//!   pass and of a count of faults, and not of what stands behind an end. A [`Gate`] holds a thread in a test.
//!
//! What takes memory takes the allocator first and may answer [`NoMemory`]; it is then as it was before the call.
#![tactic(auto)]

mod byte_list;
mod byte_queue;
mod call_tally;
mod decimal;
mod faults;
mod gates;
mod hexadecimal;
mod item_list;
pub mod laws;
mod mem_sink;
mod mem_source;
mod mem_vault;
mod sinks;
mod sources;
mod std_sink;
mod std_source;
mod sure_sink;
mod sure_source;
mod sure_vault;
mod told;
mod vaults;

pub use byte_list::Bytes;
pub use byte_queue::ByteQueue;
pub use decimal::{push_decimal, read_decimal};
pub use faults::{Failed, VaultErr};
pub use gates::{Gate, OpenGate};
pub use hexadecimal::{hex_pair, push_hex, push_hex_between, read_hex};
pub use item_list::{Calls, Items};
pub use mem_sink::MemSink;
pub use mem_source::MemSource;
pub use mem_vault::{Alter, Alters, MemVault};
pub use sinks::Sink;
pub use sources::Source;
pub use std::alloc::AllocError as NoMemory;
pub use std_sink::StdSink;
pub use std_source::StdSource;
pub use sure_sink::SureSink;
pub use sure_source::SureSource;
pub use sure_vault::SureVault;
pub use text_model::{HexFault, NumFault};
pub use vaults::Vault;
