//! The world in which a script begins.

ghost use Rattle.std.specs.Prelude.{◌≡◌, ◌≤◌, List, Option, Some, Err, map, length, IfOk, OnOk};
ghost use Rattle.std.specs.List.{AllByRecursion};
ghost use Rattle.kept_model.specs.declared.fault.LoadFault.{LoadFault};
ghost use Rattle.world_model.specs.Worlds.{new_world};
ghost use Rattle.world_model.specs.Transcripts.{with_domains};
ghost use Rattle.guest_script.specs.Views.{domain_view, script_view};
ghost use Rattle.guest_script.specs.Drafts.{IsSoundDomain};
ghost use Rattle.world_core.specs.Stands.{StandsFor};
ghost use Rattle.xs_drive.specs.Starts.{AddsDomains, Resumes, ResumesNot, Starts, StartsNot};
ghost use Rattle.xs_drive.specs.declared.start.StartFault.{StartFault};
ghost use Rattle.xs_drive.specs.declared.start.StartFault.TheVariants.{NoMemory as no_memory};

use daemon::Daemon;
use guest_script::{DomainLines, Script};
use kept_model::LoadFault;
use mig_load::load;
use msg_reassembly::{Inbox, Ins};
use std::alloc::Global;
use world_core::World;
use xs_base::{Bytes, NoMemory};

/// Why a script does not begin.
#[derive(Clone, Copy, Debug, PartialEq, Eq)]
pub enum StartFault {
    /// Its stream tells no state.
    Load(LoadFault),
    /// No memory was found for the store or the domains.
    NoMemory,
}

impl From<NoMemory> for StartFault {
    ghost from_gives = { λ _ e. e ≡ no_memory };

    fn from(_error: NoMemory) -> StartFault {
        StartFault::NoMemory
    }
}

/// The world of the head lines of a script: that of a new store, or of the state that a stream tells, with the domains.
pub fn start(alloc: Global, script: &Script) -> Result<World, StartFault>
    requires domains { AllByRecursion IsSoundDomain (map domain_view script.now.domains) }
    ensures ok { IfOk result (Starts (script_view script.now)) }
    ensures load { (fault : LoadFault) → result ≡ Err (StartFault.Load fault) → StartsNot (script_view script.now) fault }
{
    let mut world = first_world(alloc, &script.resume)?;
    add_domains(&mut world, &script.domains)?;
    Ok(world)
}

/// The world of a new store with the domains of head lines.
pub fn begin(alloc: Global, domains: &DomainLines) -> Result<World, NoMemory>
    requires { AllByRecursion IsSoundDomain (map domain_view domains.now) }
    ensures { IfOk result (λ world. StandsFor world (with_domains (map domain_view domains.now) new_world)) }
{
    let mut world = new_world(alloc)?;
    add_domains(&mut world, domains)?;
    Ok(world)
}

/// The world of a new store, or of the state that a stream tells.
fn first_world(alloc: Global, resume: &Option<Bytes>) -> Result<World, StartFault>
    ensures ok { IfOk result (Resumes resume.now) }
    ensures load { (fault : LoadFault) → result ≡ Err (StartFault.Load fault) → ResumesNot resume.now fault }
{
    match resume {
        Some(stream) => resumed_world(alloc, stream.as_slice()),
        None => Ok(new_world(alloc)?),
    }
}

/// The world that goes on from the state that a stream tells.
fn resumed_world(alloc: Global, stream: &[u8]) -> Result<World, StartFault>
    ensures ok { IfOk result (Resumes (Some stream.now)) }
    ensures load { (fault : LoadFault) → result ≡ Err (StartFault.Load fault) → ResumesNot (Some stream.now) fault }
{
    match load(alloc, stream) {
        Ok((daemon, ins)) => Ok(World::start(alloc, daemon, ins)?),
        Err(LoadFault::NoMemory) => Err(StartFault::NoMemory),
        Err(fault) => Err(StartFault::Load(fault)),
    }
}

/// The world of a new store, where domain 0 alone is connected.
fn new_world(alloc: Global) -> Result<World, NoMemory>
    ensures { IfOk result (λ world. StandsFor world new_world) }
{
    let mut ins = Ins::new(alloc);
    ins.add(1, Inbox::new(alloc)?)?;
    World::start(alloc, Daemon::new(alloc)?, ins)
}

/// The domains of a script's head lines are there. Refused, some of them are.
fn add_domains(world: &mut World, domains: &DomainLines) -> Result<(), NoMemory>
    requires { AllByRecursion IsSoundDomain (map domain_view domains.now) }
    ensures { OnOk result (AddsDomains world.old (map domain_view domains.now) world.new) }
{
    for line in domains.as_slice() {
        world.add_domain(line.domid, line.start)?;
    }
    Ok(())
}
