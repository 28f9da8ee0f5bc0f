//! An object that several threads call, one call at a time. This project's own.
//!
//! A [`Turn`] is a ticket lock of single atomic steps: a call draws a ticket, waits until it is served, does its work and
//! serves the next. Its promises hold of every [`Object`], whatever the threads do. One [`History`] has each call that
//! changed the object once, and each caller's in the order in which it made them. A call tells what history it found, and
//! its answer is the object's after this history. A quiet answer and want of memory leave no entry. Room for the entry is
//! taken before the object changes. [`Turn::close`] gives the object and the whole history, which replays to it.
//!
//! Nothing is promised of progress, of fairness, of time, or of the order between callers that told each other nothing.
//! Waiting spins, and after 64 looks lets other threads run in between. [`Callers::take`], [`Callers::give`] and
//! [`Turn::close`] take no memory. [`laws`] has that threads may share a turn, and that a caller may go to any of them.
#![tactic(auto)]

mod callers;
mod deals;
mod desk;
mod history;
pub mod laws;
mod object;
mod steps;
mod turn;
mod views;

pub use callers::{Caller, Callers};
pub use history::{Entry, History};
pub use object::{NoMemory, Object};
pub use turn::Turn;
