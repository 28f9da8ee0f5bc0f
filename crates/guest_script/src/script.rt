//! Whole scripts.

ghost use Rattle.std.specs.Prelude.{IfOk, map};
ghost use Rattle.std.specs.List.{AllByRecursion};
ghost use Rattle.world_model.specs.Scripts.{script_of};
ghost use Rattle.guest_script.specs.Views.{IsScript, domain_view, event_view};
ghost use Rattle.guest_script.specs.Drafts.{IsSoundDomain, IsSoundEvent};

use crate::draft::Draft;
use crate::event::{DomainLines, Events};
use crate::fault::{LineFault, ScriptFault};
use crate::text_lines::cut_line;
use std::alloc::Global;
use xs_base::Bytes;

/// A whole script.
#[derive(Debug, Drop)]
pub struct Script {
    /// The stream from which the run starts, where it does not start with a new store.
    pub resume: Option<Bytes>,
    /// The domains that are there from the start, in the order of their lines; none twice.
    pub domains: DomainLines,
    /// What happens, in order. A line `serve` is its five events.
    pub events: Events,
}

/// The script that a text is, or its first faulty line and that line's first fault.
///
/// O(length of the text); beside the script it takes a table of 32 KiB.
pub fn read_script(alloc: Global, bytes: &[u8]) -> Result<Script, ScriptFault>
    ensures script { IsScript result (script_of bytes.now) }
    ensures sound { IfOk result (λ script. AllByRecursion IsSoundEvent (map event_view script.events)) }
    ensures sound_domains { IfOk result (λ script. AllByRecursion IsSoundDomain (map domain_view script.domains)) }
{
    let Ok(mut draft) = Draft::new(alloc) else {
        return Err(ScriptFault::NoMemory);
    };
    let mut line = 0;
    let mut rest = bytes;
    while let Some((text, behind)) = cut_line(rest) {
        line += 1;
        match draft.read(alloc, text) {
            Ok(()) => rest = behind,
            Err(LineFault::Kind(kind)) => return Err(ScriptFault::Line { line, kind }),
            Err(LineFault::NoMemory) => return Err(ScriptFault::NoMemory),
        }
    }
    Ok(draft.into_script())
}
