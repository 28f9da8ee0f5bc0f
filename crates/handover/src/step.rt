//! The step from one store to the next, behind the image.

ghost use Rattle.std.specs.Prelude.{◌≡◌, ◌≤◌, ◌⊎◌, List, ℕ, length, map, Ok, Err, IfOk};
ghost use Rattle.std.specs.List.{AllByRecursion};
ghost use Rattle.kept_model.specs.Images.{image};
ghost use Rattle.kept_model.specs.Normal.{state_of_bytes};
ghost use Rattle.store_parts.specs.States.{state_of};
ghost use Rattle.handover.specs.Hands.{Passes};
ghost use Rattle.handover.specs.Handed.{Succeeds};

use crate::change::first_change;
use crate::handed::Refusal;
use daemon::Daemon;
use kept_model::LoadFault;
use msg_reassembly::Ins;
use std::alloc::Global;
use xs_base::{Bytes, Vault, VaultErr};

/// Makes a store of bytes.
pub trait Loader {
    /// The store of the state that the bytes tell, and the bytes that were read from its connections.
    fn load(&mut self, alloc: Global, bytes: &[u8]) -> Result<(Daemon, Ins), LoadFault>
        ensures ok { IfOk result (λ loaded. state_of_bytes bytes.now ≡ Ok (state_of loaded.0 loaded.1.entries)) }
        ensures fault { (fault : LoadFault) → result ≡ Err fault → (fault ≡ LoadFault.NoMemory) ⊎ (state_of_bytes bytes.now ≡ Err fault) }
        ensures named { IfOk result (λ loaded. map (λ e. e.0) loaded.1.entries ≡ map (λ e. e.0) loaded.0.unsent) }
        ensures short { IfOk result (λ loaded. AllByRecursion (λ e. length e.1 ≤ 16777216) loaded.1.entries) };
}

/// Why the old store goes on where a call of the vault was refused.
fn refused(error: VaultErr) -> Refusal
    ensures failed { error ≡ VaultErr.Failed → result ≡ Refusal.VaultFault }
    ensures no_memory { error ≡ VaultErr.NoMemory → result ≡ Refusal.NoMemory }
{
    match error {
        VaultErr::Failed => Refusal::VaultFault,
        VaultErr::NoMemory => Refusal::NoMemory,
    }
}

/// Why the old store goes on where there was no memory for a new one.
fn unloaded(fault: LoadFault) -> Refusal
    requires { fault ≡ LoadFault.NoMemory }
    ensures { result ≡ Refusal.NoMemory }
{
    match fault {
        LoadFault::NoMemory => Refusal::NoMemory,
        _ => unreachable!(),
    }
}

/// Puts the image into the vault, and gives back what that gives, where it is the image.
fn through<V: Vault>(image: &[u8], vault: &mut V) -> Result<Bytes, Refusal>
    ensures { Passes image.now
        (record { puts = V.puts vault.old; gets = V.gets vault.old; faults = V.faults vault.old; honest = V.honest vault.old }) result
        (record { puts = V.puts vault.new; gets = V.gets vault.new; faults = V.faults vault.new; honest = V.honest vault.new }) }
{
    if let Err(error) = vault.put(image) {
        return Err(refused(error));
    }
    let got = match vault.get() {
        Ok(got) => got,
        Err(error) => return Err(refused(error)),
    };
    match first_change(image, got.as_slice()) {
        Some(change) => Err(Refusal::Changed(change)),
        None => Ok(got),
    }
}

/// Makes a store of the image, where the vault gives it back.
pub fn hand_on<L: Loader, V: Vault>(
    alloc: Global,
    old: &Daemon,
    ins: &Ins,
    bytes: &Bytes,
    loader: &mut L,
    vault: &mut V,
) -> Result<(Daemon, Ins), Refusal>
    requires inboxes { AllByRecursion (λ e. length e.1 ≤ 16777216) ins.now.entries }
    requires image { bytes.now ≡ image (state_of old.now ins.now.entries) }
    ensures succeeds { Succeeds old.now ins.now.entries
        (record { puts = V.puts vault.old; gets = V.gets vault.old; faults = V.faults vault.old; honest = V.honest vault.old }) result
        (record { puts = V.puts vault.new; gets = V.gets vault.new; faults = V.faults vault.new; honest = V.honest vault.new }) }
    ensures short { IfOk result (λ next. AllByRecursion (λ e. length e.1 ≤ 16777216) next.1.entries) }
{
    old.is_sound();
    let got = through(bytes.as_slice(), vault)?;
    match loader.load(alloc, got.as_slice()) {
        Ok((daemon, loaded)) => {
            daemon.is_sound();
            Ok((daemon, loaded))
        }
        // The image of a sound state tells that state, so nothing but memory was missing.
        Err(fault) => Err(unloaded(fault)),
    }
}
