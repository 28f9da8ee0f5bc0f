//! What holds of every daemon. A law is a function that does nothing: its clause is the law, and its proof is the proof of
//! the law.

ghost use Rattle.machine_model.specs.Machine.{Machine};
ghost use Rattle.machine_model.specs.Serial.{IsSerial};
ghost use Rattle.store_parts.specs.Kept.{Kept};
ghost use Rattle.daemon.specs.Keeps.{StandsFor};

/// In every sequential store that a daemon stands for, a transaction that is not in conflict would get of the current tree
/// what it got of its copy.
pub fn commits_are_serial()
    ensures { (kept : Kept) (m : Machine) → StandsFor kept m → IsSerial m }
{}
