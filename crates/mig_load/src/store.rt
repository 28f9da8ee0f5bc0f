//! The store that bytes tell.

ghost use Rattle.std.specs.Prelude.{◌≡◌, ◌⊎◌, ◌≤◌, ◌<◌, Ok, Err, MatchResult, IfOk, map, length};
ghost use Rattle.std.specs.List.{AllByRecursion};
ghost use Rattle.stream_model.specs.declared.fault.StreamFault.{StreamFault};
ghost use Rattle.stream_model.specs.Reading.{stream_of};
ghost use Rattle.kept_model.specs.Laws.{AreBytes};
ghost use Rattle.kept_model.specs.Normal.{state_of_bytes};
ghost use Rattle.store_parts.specs.States.{state_of};

use crate::parts::load_parts;
use daemon::Daemon;
use kept_model::LoadFault;
use msg_reassembly::Ins;
use std::alloc::Global;

/// A byte is below 256. It does nothing.
fn is_byte(byte: u8)
    ensures { byte < 256 }
{}

/// Each byte of a slice is below 256. It changes nothing.
fn are_bytes(bytes: &[u8])
    ensures { AreBytes bytes.now }
{
    for byte in bytes {
        is_byte(*byte);
    }
}

/// The store whose state a migration stream tells, and the bytes that were read from its connections and are not answered.
///
/// A refusal is the first fault of the stream, whatever memory there is; else the first fault of the first record at fault;
/// else the first path that a transaction leaves without its parent; or want of memory. O(bytes * log(nodes + connections))
/// comparisons.
pub fn load(alloc: Global, bytes: &[u8]) -> Result<(Daemon, Ins), LoadFault>
    ensures told { MatchResult result (λ loaded. state_of_bytes bytes.now ≡ Ok (state_of loaded.0 loaded.1.entries))
        (λ fault. (fault ≡ LoadFault.NoMemory) ⊎ (state_of_bytes bytes.now ≡ Err fault)) }
    ensures stream { (fault : StreamFault) → stream_of bytes.now ≡ Err fault → result ≡ Err (LoadFault.Stream fault) }
    ensures named { IfOk result (λ loaded. map (λ e. e.0) loaded.1.entries ≡ map (λ e. e.0) loaded.0.unsent) }
    ensures short { IfOk result (λ loaded. AllByRecursion (λ e. length e.1 ≤ 16777216) loaded.1.entries) }
{
    are_bytes(bytes);
    let (parts, ins) = load_parts(alloc, bytes)?;
    Ok((Daemon::of(alloc, parts), ins))
}
