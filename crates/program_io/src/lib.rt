//! What every program does with its ends: a whole input is read, and a whole text is written.
#![tactic(auto)]

mod input;
mod output;

pub use input::{INPUT_LIMIT, InputFault, read_all};
pub use output::{write_all, write_if_many};
