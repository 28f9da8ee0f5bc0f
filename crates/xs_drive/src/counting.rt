//! A made script is played, and what comes of it is counted.

ghost use Rattle.std.specs.Prelude.{◌≡◌, ◌++◌, Ok, Err, map, IfOk, OnOk, OnErr};
ghost use Rattle.std.specs.List.{AllByRecursion};
ghost use Rattle.xs_base.specs.Faults.{NeverFalls, Rose};
ghost use Rattle.world_model.specs.Scripts.{script_of};
ghost use Rattle.guest_script.specs.Drafts.{IsSoundDomain};
ghost use Rattle.guest_script.specs.Made.{made_script};
ghost use Rattle.guest_script.specs.Views.{domain_view, event_view, script_view};
ghost use Rattle.world_core.specs.Stands.{Moves};
ghost use Rattle.xs_drive.specs.Counts.{CountsAll, CountsAllFrom, CountsFront, CountsNothing, CountsOne, StopsFrom, count_line, counted, counts_text, no_counts};
ghost use Rattle.xs_drive.specs.Play.{PrintsNothing};
ghost use Rattle.xs_drive.specs.declared.play.PlayFault.{PlayFault};

use crate::play::PlayFault;
use crate::start::begin;
use guest_script::{Event, Events, Script, ScriptFault, laws, make, read_script};
use program_io::write_all;
use std::alloc::Global;
use world_core::World;
use world_model::Said;
use xs_base::{Bytes, NoMemory, Sink, Vault, push_decimal};

/// How many lines a run has, how many requests were done and held, how many bytes were taken, and how many handovers led to
/// a new store. A count stands still at the greatest number of 64 bits.
#[derive(Clone, Copy, Debug, PartialEq, Eq)]
pub struct Counts {
    pub lines: u64,
    pub done: u64,
    pub held: u64,
    pub taken: u64,
    pub handovers: u64,
}

impl Counts {
    /// Nothing came.
    fn new() -> Counts
        ensures { result ≡ no_counts }
    {
        Counts {
            lines: 0,
            done: 0,
            held: 0,
            taken: 0,
            handovers: 0,
        }
    }

    /// An event said this.
    fn count(&mut self, said: &Said)
        ensures { self.new ≡ counted said.now self.old }
    {
        self.lines = self.lines.saturating_add(1);
        match said {
            Said::Done => self.done = self.done.saturating_add(1),
            Said::Held { .. } => self.held = self.held.saturating_add(1),
            Said::Got(count) => self.taken = self.taken.saturating_add(*count as u64),
            Said::Handed => self.handovers = self.handovers.saturating_add(1),
            _ => {}
        }
    }
}

/// Plays the script of a seed with so many operations, and writes its counts once all of it was played. Refused for the
/// sink, a front of them was written; and for want of memory, nothing.
pub fn write_counts<K: Sink, V: Vault>(
    alloc: Global,
    seed: u64,
    count: u32,
    out: &mut K,
    vault: &mut V,
) -> Result<(), PlayFault>
    ensures ok { OnOk result (CountsAll seed count (K.written out.old) (K.written out.new) (record { puts = V.puts vault.old; gets = V.gets vault.old; faults = V.faults vault.old; honest = V.honest vault.old })
        (record { puts = V.puts vault.new; gets = V.gets vault.new; faults = V.faults vault.new; honest = V.honest vault.new })) }
    ensures stopped { result ≡ Err PlayFault.WriteFault → CountsFront seed count (K.written out.old) (K.written out.new) (record { puts = V.puts vault.old; gets = V.gets vault.old; faults = V.faults vault.old; honest = V.honest vault.old })
        (record { puts = V.puts vault.new; gets = V.gets vault.new; faults = V.faults vault.new; honest = V.honest vault.new }) }
    ensures starved { result ≡ Err PlayFault.NoMemory → CountsNothing seed count (K.written out.old) (K.written out.new) (record { puts = V.puts vault.old; gets = V.gets vault.old; faults = V.faults vault.old; honest = V.honest vault.old })
        (record { puts = V.puts vault.new; gets = V.gets vault.new; faults = V.faults vault.new; honest = V.honest vault.new }) }
    ensures failed { result ≡ Err PlayFault.WriteFault → Rose (K.faults out.old) (K.faults out.new) }
    ensures counts { NeverFalls (K.faults out.old) (K.faults out.new) }
    ensures vault_counts { NeverFalls (V.faults vault.old) (V.faults vault.new) }
{
    let script = made(alloc, seed, count)?;
    let world = begin(alloc, &script.domains)?;
    let counts = count_all(world, &script.events, vault)?;
    let text = text_of(alloc, counts)?;
    write_all(out, text.as_slice())?;
    Ok(())
}

/// The script of a seed with so many operations. It reads, so that it is refused for want of memory alone.
fn made(alloc: Global, seed: u64, count: u32) -> Result<Script, NoMemory>
    ensures reads { IfOk result (λ script. script_of (made_script seed count) ≡ Ok (script_view script)) }
    ensures events { IfOk result (λ script. AllByRecursion Moves (map event_view script.events)) }
    ensures domains { IfOk result (λ script. AllByRecursion IsSoundDomain (map domain_view script.domains)) }
{
    laws::made_scripts_read();
    let text = make(alloc, seed, count)?;
    match read_script(alloc, text.as_slice()) {
        Ok(script) => Ok(script),
        Err(ScriptFault::NoMemory) => Err(NoMemory),
        Err(ScriptFault::Line { .. }) => unreachable!(),
    }
}

/// Plays events in a world, and counts what comes of them.
fn count_all<V: Vault>(mut world: World, events: &Events, vault: &mut V) -> Result<Counts, NoMemory>
    requires { AllByRecursion Moves (map event_view events.now) }
    ensures ok { IfOk result (λ counts. CountsAllFrom world (map event_view events.now) counts (record { puts = V.puts vault.old; gets = V.gets vault.old; faults = V.faults vault.old; honest = V.honest vault.old })
        (record { puts = V.puts vault.new; gets = V.gets vault.new; faults = V.faults vault.new; honest = V.honest vault.new })) }
    ensures err { OnErr result (StopsFrom world (map event_view events.now) (record { puts = V.puts vault.old; gets = V.gets vault.old; faults = V.faults vault.old; honest = V.honest vault.old })
        (record { puts = V.puts vault.new; gets = V.gets vault.new; faults = V.faults vault.new; honest = V.honest vault.new })) }
{
    let mut counts = Counts::new();
    for event in events.as_slice() {
        count_step(&mut world, event, vault, &mut counts)?;
    }
    Ok(counts)
}

/// Plays one event, and counts what it said.
fn count_step<V: Vault>(
    world: &mut World,
    event: &Event,
    vault: &mut V,
    counts: &mut Counts,
) -> Result<(), NoMemory>
    requires { Moves (event_view event.now) }
    ensures ok { OnOk result (CountsOne world.old (event_view event.now) counts.old
        (record { puts = V.puts vault.old; gets = V.gets vault.old; faults = V.faults vault.old; honest = V.honest vault.old })
        world.new counts.new
        (record { puts = V.puts vault.new; gets = V.gets vault.new; faults = V.faults vault.new; honest = V.honest vault.new })) }
    ensures nothing { OnErr result (PrintsNothing world.old (event_view event.now) (record { puts = V.puts vault.old; gets = V.gets vault.old; faults = V.faults vault.old; honest = V.honest vault.old })
        (record { puts = V.puts vault.new; gets = V.gets vault.new; faults = V.faults vault.new; honest = V.honest vault.new })) }
{
    match world.step(event, vault) {
        Said::NoMemory => Err(NoMemory),
        said => {
            counts.count(&said);
            Ok(())
        }
    }
}

/// The lines of counts.
fn text_of(alloc: Global, counts: Counts) -> Result<Bytes, NoMemory>
    ensures { IfOk result (λ text. text ≡ counts_text counts) }
{
    let mut text = Bytes::new(alloc);
    push_count(&mut text, b"lines ", counts.lines)?;
    push_count(&mut text, b"done ", counts.done)?;
    push_count(&mut text, b"held ", counts.held)?;
    push_count(&mut text, b"taken ", counts.taken)?;
    push_count(&mut text, b"handovers ", counts.handovers)?;
    Ok(text)
}

/// Appends the line of one count.
fn push_count(text: &mut Bytes, name: &[u8], count: u64) -> Result<(), NoMemory>
    ensures { OnOk result (text.new ≡ text.old ++ count_line name.now count) }
{
    text.push(name)?;
    push_decimal(text, count)?;
    text.push(b"\n")
}
