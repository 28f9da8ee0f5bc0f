//! A store by the one before it.

ghost use Rattle.std.specs.Prelude.{◌≤◌, List, ℕ, length, IfOk};
ghost use Rattle.std.specs.List.{AllByRecursion};
ghost use Rattle.handover.specs.Handed.{Hands, Succeeds};

use crate::handed::{Handed, Refusal};
use crate::step::{Loader, hand_on};
use daemon::Daemon;
use kept_model::LoadFault;
use mig_load::load;
use mig_save::save;
use msg_reassembly::Ins;
use std::alloc::Global;
use xs_base::Vault;

/// Makes a store of a migration stream.
#[derive(Drop)]
struct StreamLoader;

impl Loader for StreamLoader {
    /// See [`load`].
    fn load(&mut self, alloc: Global, bytes: &[u8]) -> Result<(Daemon, Ins), LoadFault> {
        load(alloc, bytes)
    }
}

/// A new store in the state of the old one, by an image that goes through the vault; or why there is none.
///
/// The old store stays as it is, and so do the bytes that were read from its connections, until the caller lets them go. It
/// costs what [`save`] and [`load`] cost, and one comparison of the image with what the vault gave back. It is refused for
/// a fault of the vault, for the first byte that the vault changed, or for want of memory, and never for what it loads.
pub fn successor<V: Vault>(
    alloc: Global,
    old: &Daemon,
    ins: &Ins,
    vault: &mut V,
) -> Result<(Daemon, Ins), Refusal>
    requires inboxes { AllByRecursion (λ e. length e.1 ≤ 16777216) ins.now.entries }
    ensures succeeds { Succeeds old.now ins.now.entries
        (record { puts = V.puts vault.old; gets = V.gets vault.old; faults = V.faults vault.old; honest = V.honest vault.old }) result
        (record { puts = V.puts vault.new; gets = V.gets vault.new; faults = V.faults vault.new; honest = V.honest vault.new }) }
    ensures short { IfOk result (λ next. AllByRecursion (λ e. length e.1 ≤ 16777216) next.1.entries) }
{
    let Ok(bytes) = save(alloc, old, ins) else {
        return Err(Refusal::NoMemory);
    };
    hand_on(alloc, old, ins, &bytes, &mut StreamLoader, vault)
}

/// The old store is replaced by a new one in its state, or goes on as it was. It costs what [`successor`] does.
pub fn handover<V: Vault>(alloc: Global, old: Daemon, ins: Ins, vault: &mut V) -> Handed
    requires inboxes { AllByRecursion (λ e. length e.1 ≤ 16777216) ins.entries }
    ensures { Hands old ins.entries
        (record { puts = V.puts vault.old; gets = V.gets vault.old; faults = V.faults vault.old; honest = V.honest vault.old }) result
        (record { puts = V.puts vault.new; gets = V.gets vault.new; faults = V.faults vault.new; honest = V.honest vault.new }) }
{
    match successor(alloc, &old, &ins, vault) {
        Ok((daemon, loaded)) => Handed::New(daemon, loaded),
        Err(refusal) => Handed::Kept(old, ins, refusal),
    }
}
