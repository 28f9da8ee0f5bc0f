//! Scripts: what a run of guests is to do, a line an event, and the lines that are printed of it.
//!
//! [`read_script`] reads the text of a script, or names its first faulty line and that line's first fault;
//! [`print_said`] prints the line of one event and its answer. The definitions of both are in the crate
//! `world_model`. [`make`] makes the text of a script from a seed.
#![tactic(auto)]

mod draft;
mod event;
mod fault;
mod fields;
mod generator;
pub mod laws;
mod line;
mod line_text;
mod made;
mod made_message;
mod numbers;
mod print;
mod script;
mod text_lines;
mod verbs;

pub use event::{DomainLine, DomainLines, Event, Events};
pub use fault::ScriptFault;
pub use made::make;
pub use print::print_said;
pub use script::{Script, read_script};
pub use text_lines::cut_line;
pub use world_model::{LineKind, Said, Which};
