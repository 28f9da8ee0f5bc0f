//! A line by itself.

ghost use Rattle.world_model.specs.Scripts.{line_of};
ghost use Rattle.guest_script.specs.Views.{Reads, line_view};

use crate::event::{DomainLine, Event};
use crate::fault::LineFault;
use crate::fields::cut_field;
use crate::verbs::by_verb;
use std::alloc::Global;
use xs_base::Bytes;

/// What a line says.
#[derive(Debug, Drop)]
pub enum Line {
    /// An empty line or a comment.
    Nothing,
    /// The head line `resume`: a run starts from this stream.
    Resume(Bytes),
    /// The head line `domain`.
    Domain(DomainLine),
    /// One event.
    Event(Event),
    /// The five events of `serve`.
    Serve { domid: u16 },
}

/// What a line says, or its first fault but for its place. O(length of the line); it takes memory for the
/// bytes that the line spells alone.
pub fn line_of(alloc: Global, text: &[u8]) -> Result<Line, LineFault>
    ensures { Reads line_view result (line_of text.now) }
{
    if text.is_empty() || text[0] == b'#' {
        return Ok(Line::Nothing);
    }
    let (verb, fields) = cut_field(text);
    by_verb(alloc, verb, fields)
}
