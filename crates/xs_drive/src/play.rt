//! Plays the events of a script.

ghost use Rattle.std.specs.Prelude.{◌≡◌, Err, map, OnOk, OnErr};
ghost use Rattle.std.specs.List.{AllByRecursion};
ghost use Rattle.xs_base.specs.Faults.{NeverFalls, Rose};
ghost use Rattle.guest_script.specs.Views.{event_view};
ghost use Rattle.world_core.specs.Stands.{Moves};
ghost use Rattle.xs_drive.specs.Play.{Prints, PrintsNothing, RunsAllFrom, RunsFrontFrom};
ghost use Rattle.xs_drive.specs.declared.play.PlayFault.{PlayFault};
ghost use Rattle.xs_drive.specs.declared.play.PlayFault.TheVariants.{NoMemory as no_memory, WriteFault as write_fault};

use guest_script::{Event, Events, print_said};
use program_io::{write_all, write_if_many};
use std::alloc::Global;
use world_core::World;
use world_model::Said;
use xs_base::{Bytes, Failed, NoMemory, Sink, Vault};

/// Why not all lines were written.
#[derive(Clone, Copy, Debug, PartialEq, Eq)]
pub enum PlayFault {
    /// The sink failed.
    WriteFault,
    /// No memory was found for an event or its line.
    NoMemory,
}

impl From<NoMemory> for PlayFault {
    ghost from_gives = { λ _ e. e ≡ no_memory };

    fn from(_error: NoMemory) -> PlayFault {
        PlayFault::NoMemory
    }
}

impl From<Failed> for PlayFault {
    ghost from_gives = { λ _ e. e ≡ write_fault };

    fn from(_error: Failed) -> PlayFault {
        PlayFault::WriteFault
    }
}

/// Plays the events of a script in a world, and writes the line of each, through one buffer whose size does not grow with
/// their number. Refused, a front of the lines was written. Where no memory was found, the lines so far are still written as
/// far as the sink takes them, which no clause promises.
pub fn play<K: Sink, V: Vault>(
    alloc: Global,
    mut world: World,
    events: &Events,
    out: &mut K,
    vault: &mut V,
) -> Result<(), PlayFault>
    requires { AllByRecursion Moves (map event_view events.now) }
    ensures ok { OnOk result (RunsAllFrom world (map event_view events.now) (K.written out.old) (K.written out.new)
        (record { puts = V.puts vault.old; gets = V.gets vault.old; faults = V.faults vault.old; honest = V.honest vault.old })
        (record { puts = V.puts vault.new; gets = V.gets vault.new; faults = V.faults vault.new; honest = V.honest vault.new })) }
    ensures err { OnErr result (RunsFrontFrom world (map event_view events.now) (K.written out.old) (K.written out.new)
        (record { puts = V.puts vault.old; gets = V.gets vault.old; faults = V.faults vault.old; honest = V.honest vault.old })
        (record { puts = V.puts vault.new; gets = V.gets vault.new; faults = V.faults vault.new; honest = V.honest vault.new })) }
    ensures failed { result ≡ Err PlayFault.WriteFault → Rose (K.faults out.old) (K.faults out.new) }
    ensures counts { NeverFalls (K.faults out.old) (K.faults out.new) }
{
    let mut lines = Bytes::new(alloc);
    for event in events.as_slice() {
        if print_step(&mut world, event, vault, &mut lines).is_err() {
            let _written = write_all(out, lines.as_slice());
            return Err(PlayFault::NoMemory);
        }
        write_if_many(&mut lines, out)?;
    }
    write_all(out, lines.as_slice())?;
    Ok(())
}

/// Plays one event, and appends its line. Refused, the lines are as before.
fn print_step<V: Vault>(
    world: &mut World,
    event: &Event,
    vault: &mut V,
    lines: &mut Bytes,
) -> Result<(), NoMemory>
    requires { Moves (event_view event.now) }
    ensures ok { OnOk result (Prints world.old (event_view event.now) lines.old
        (record { puts = V.puts vault.old; gets = V.gets vault.old; faults = V.faults vault.old; honest = V.honest vault.old })
        world.new lines.new
        (record { puts = V.puts vault.new; gets = V.gets vault.new; faults = V.faults vault.new; honest = V.honest vault.new })) }
    ensures err { OnErr result (lines.new ≡ lines.old) }
    ensures nothing { OnErr result (PrintsNothing world.old (event_view event.now)
        (record { puts = V.puts vault.old; gets = V.gets vault.old; faults = V.faults vault.old; honest = V.honest vault.old })
        (record { puts = V.puts vault.new; gets = V.gets vault.new; faults = V.faults vault.new; honest = V.honest vault.new })) }
{
    match world.step(event, vault) {
        Said::NoMemory => Err(NoMemory),
        said => print_said(lines, event, &said, world.taken()),
    }
}
