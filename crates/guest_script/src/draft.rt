//! A script as far as it was read.

ghost use Rattle.std.specs.Prelude.{◌≡◌, ◌<◌, ◌++◌, ℕ, false, length, map, IfOk, OnOk, vec_len, slice_index_or};
ghost use Rattle.world_model.specs.Worlds.{serve};
ghost use Rattle.world_model.specs.Scripts.{Resume, Domain, empty_script, may_resume, may_name};
ghost use Rattle.guest_script.specs.Views.{event_view, line_view, script_view};
ghost use Rattle.guest_script.specs.Drafts.{Adds, IsDomid, IsSoundLine, ReadsLine, has_events, place_of};

use crate::event::{DomainLine, DomainLines, Event, Events};
use crate::fault::LineFault;
use crate::line::{Line, line_of};
use crate::script::Script;
use std::alloc::Global;
use std::marker::Model;
use world_model::LineKind;
use xs_base::{Bytes, NoMemory};

/// How many domids there are: 0 to 32751.
const DOMIDS: usize = 32_752;

/// How many bytes `serve` moves at the most through a ring of 1024 bytes.
const RING_BYTES: u32 = 1024;

/// The most bytes of a message.
const MESSAGE_BYTES: u32 = 4112;

/// A script as far as it was read, and for each domid whether a head line named it.
#[derive(Drop)]
pub struct Draft {
    script: Script,
    named: Vec<bool>,
}

impl Model for Draft {
    ghost use Rattle.world_model.specs.Scripts.{Script};
    ghost use Rattle.guest_script.specs.Views.{script_view};
    ghost use Rattle.guest_script.specs.Drafts.{TellsNamed};

    ghost Value = { Script };

    ghost view = { λ draft. script_view draft.script };

    ghost invariant = { λ draft. TellsNamed draft.named.items (script_view draft.script).domains };
}

impl Draft {
    /// A script without lines.
    pub fn new(alloc: Global) -> Result<Draft, NoMemory>
        ensures { IfOk result (λ draft. draft ≡ empty_script) }
    {
        let named = no_names(alloc, DOMIDS)?;
        let script = Script {
            resume: None,
            domains: DomainLines::new(alloc),
            events: Events::new(alloc),
        };
        Ok(Draft { script, named })
    }

    /// The script.
    pub fn into_script(self) -> Script
        ensures { script_view result ≡ self }
    {
        let Draft { script, named: _ } = self;
        script
    }

    /// Reads one more line. A line that is refused adds nothing; what stands after want of memory is no
    /// script. O(length of the line) on average.
    pub fn read(&mut self, alloc: Global, text: &[u8]) -> Result<(), LineFault>
        ensures { ReadsLine self.old text.now self.new result }
    {
        let line = line_of(alloc, text)?;
        self.add(line)
    }

    /// Adds a line, if it may stand here.
    fn add(&mut self, line: Line) -> Result<(), LineFault>
        requires { IsSoundLine (line_view line) }
        ensures { Adds self.old (line_view line) self.new result }
    {
        match line {
            Line::Nothing => Ok(()),
            Line::Resume(bytes) => self.resume(bytes),
            Line::Domain(head) => self.domain(head),
            Line::Event(event) => {
                self.script.events.push(event)?;
                Ok(())
            }
            Line::Serve { domid } => Ok(push_serve(&mut self.script.events, domid)?),
        }
    }

    /// A line `resume`, which stands before any `domain`, once.
    fn resume(&mut self, bytes: Bytes) -> Result<(), LineFault>
        ensures { Adds self.old (Resume bytes) self.new result }
    {
        if !may_resume(&self.script) {
            return Err(LineFault::Kind(LineKind::Place));
        }
        self.script.resume = Some(bytes);
        Ok(())
    }

    /// A line `domain`, which names a domain once.
    fn domain(&mut self, head: DomainLine) -> Result<(), LineFault>
        requires { IsDomid head.domid }
        ensures { Adds self.old (Domain head.domid head.start) self.new result }
    {
        if !self.may_name(head.domid) {
            return Err(LineFault::Kind(LineKind::Place));
        }
        self.script.domains.push(head)?;
        self.named[usize::from(head.domid)] = true;
        Ok(())
    }

    /// Whether a line `domain` may name this domain here. O(1).
    fn may_name(&self, domid: u16) -> bool
        requires { IsDomid domid }
        ensures { result ≡ may_name domid (place_of self.now) }
    {
        !is_in_body(&self.script) && !self.named[usize::from(domid)]
    }
}

/// Whether the head lines are over, as they are from the first event on.
fn is_in_body(script: &Script) -> bool
    ensures { result ≡ has_events (script_view script.now).events }
{
    !script.events.is_empty()
}

/// Whether a line `resume` may stand here.
fn may_resume(script: &Script) -> bool
    ensures { result ≡ may_resume (place_of (script_view script.now)) }
{
    !is_in_body(script) && script.resume.is_none() && script.domains.is_empty()
}

/// So many flags, none of which is set.
fn no_names(alloc: Global, count: usize) -> Result<Vec<bool>, NoMemory>
    ensures len { IfOk result (λ named. vec_len named ≡ count) }
    ensures none { IfOk result (λ named. (d : ℕ) → d < count → slice_index_or named.items d false ≡ false) }
{
    vec![in alloc; false; count]
}

/// Appends the five events of `serve`.
fn push_serve(events: &mut Events, domid: u16) -> Result<(), NoMemory>
    ensures { OnOk result (map event_view events.new ≡ map event_view events.old ++ serve domid) }
{
    let max = RING_BYTES;
    events.push(Event::Put { domid, max })?;
    let max = MESSAGE_BYTES;
    events.push(Event::Intake { domid, max })?;
    events.push(Event::Do { domid })?;
    events.push(Event::Out { domid, max })?;
    events.push(Event::Take { domid, max })
}
