//! What follows from the definitions, in the words of the subject. A law is a function that does nothing: its clause
//! is the law, and its proof is the proof of the law.

ghost use Rattle.machine_model.specs.Machine.{new_machine};
ghost use Rattle.machine_model.specs.Serial.{IsSerial};
ghost use Rattle.store_laws.specs.Lawful.{IsKept, Always};
ghost use Rattle.store_laws.specs.Numbers.{NumberSeenTwice, NumberSeenTwiceInside};
ghost use Rattle.store_laws.specs.Refusals.{RefusalsLeaveAll};
ghost use Rattle.store_laws.specs.Writers.{ChangesAreAllowed};

/// A new store is of the kind that runs keep: its tree holds every parent, its transactions fit it, paths and tokens are
/// short, ids are positive and rise, and its numbers stand with the paths of the tree. Requests, losses and added
/// connections leave a store of this kind.
pub fn lawful_stores_are_kept()
    ensures new { IsKept new_machine }
    ensures kept { Always IsKept }
{}

/// In every lawful store, a transaction that is not in conflict would get of the current tree what it got of its copy.
pub fn commits_are_serial()
    ensures { Always IsSerial }
{}

/// A command changes a path only where its caller may: by the right to write, or for SET_PERMS as owner, at the node of
/// its path or at the nearest one above that is there. WRITE and MKDIR make only nodes that were absent on the way down,
/// and RM removes only what is at or below its path, which is there.
pub fn changes_are_allowed()
    ensures { ChangesAreAllowed }
{}

/// A refused request leaves the store as it was, and nothing is sent besides the refusal. Two are left out: END closes its
/// transaction whatever it answers, and a command in a transaction joins its list, since what it looked at counts.
pub fn refusals_leave_all()
    ensures { RefusalsLeaveAll }
{}

/// If two replies to DIRECTORY_PART outside of transactions show the same number for one path, below 2^48 - 1, then
/// in every state between them the path was there, with the same value, entries and names of children: the parts are
/// parts of one list. The same holds of what a transaction sees, where two replies inside it show the same number below
/// 2^32 - 1.
pub fn a_number_seen_twice()
    ensures outside { NumberSeenTwice }
    ensures inside { NumberSeenTwiceInside }
{}
