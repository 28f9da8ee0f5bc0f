//! What may go to other threads.

use crate::callers::{Caller, Callers};
use crate::object::Object;
use crate::turn::Turn;

fn crosses<T: Send>(_value: &T) {}

fn is_shared<T: Sync>(_value: &T) {}

/// Threads may share a turn, and its callers may go to threads of their own, for every object.
pub fn turn_crosses<O: Object>(turn: &Turn<O>, caller: &Caller<O>, callers: &Callers<O>) {
    is_shared(turn);
    crosses(caller);
    crosses(callers);
}
