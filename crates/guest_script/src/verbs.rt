//! The lines of each verb.

ghost use Rattle.std.specs.Prelude.{◌≡◌};
ghost use Rattle.world_model.specs.Scripts.{by_verb, send_verb, poke_verb, handover_verb, resume_verb, domain_line};
ghost use Rattle.guest_script.specs.Views.{Reads, seen, line_view, fields_left};
ghost use Rattle.guest_script.specs.Parts.{domid_alone, domid_and_count};

use crate::event::{DomainLine, Event};
use crate::fault::LineFault;
use crate::fields::{no_field, one_field, three_fields, two_fields};
use crate::line::Line;
use crate::numbers::{at_field, count_field, domid_field, hex_field, which_field, word_field};
use std::alloc::Global;
use world_model::LineKind;

/// The line of a verb, or its first fault.
pub fn by_verb(alloc: Global, verb: &[u8], fields: Option<&[u8]>) -> Result<Line, LineFault>
    ensures { Reads line_view result (by_verb verb.now (fields_left fields.entry)) }
{
    if verb == b"send".as_slice() {
        return send(alloc, fields);
    }
    if verb == b"put".as_slice() {
        let (domid, max) = domid_and_count(fields)?;
        return Ok(Line::Event(Event::Put { domid, max }));
    }
    if verb == b"intake".as_slice() {
        let (domid, max) = domid_and_count(fields)?;
        return Ok(Line::Event(Event::Intake { domid, max }));
    }
    if verb == b"do".as_slice() {
        let domid = domid_alone(fields)?;
        return Ok(Line::Event(Event::Do { domid }));
    }
    if verb == b"out".as_slice() {
        let (domid, max) = domid_and_count(fields)?;
        return Ok(Line::Event(Event::Out { domid, max }));
    }
    if verb == b"take".as_slice() {
        let (domid, max) = domid_and_count(fields)?;
        return Ok(Line::Event(Event::Take { domid, max }));
    }
    if verb == b"poke".as_slice() {
        return Ok(poke(fields)?);
    }
    if verb == b"page".as_slice() {
        let domid = domid_alone(fields)?;
        return Ok(Line::Event(Event::Page { domid }));
    }
    if verb == b"serve".as_slice() {
        let domid = domid_alone(fields)?;
        return Ok(Line::Serve { domid });
    }
    if verb == b"handover".as_slice() {
        return Ok(handover(fields)?);
    }
    if verb == b"domain".as_slice() {
        return Ok(domain(fields)?);
    }
    if verb == b"resume".as_slice() {
        return resume(alloc, fields);
    }
    Err(LineFault::Kind(LineKind::Verb))
}

/// A domain and no more.
fn domid_alone(fields: Option<&[u8]>) -> Result<u16, LineKind>
    ensures { result ≡ domid_alone (fields_left fields.entry) }
{
    let field = one_field(fields)?;
    domid_field(field)
}

/// A domain, and how many bytes to move at the most.
fn domid_and_count(fields: Option<&[u8]>) -> Result<(u16, u32), LineKind>
    ensures { result ≡ domid_and_count (fields_left fields.entry) }
{
    let (domid, max) = two_fields(fields)?;
    let domid = domid_field(domid)?;
    let max = count_field(max)?;
    Ok((domid, max))
}

/// `send D HEX`.
fn send(alloc: Global, fields: Option<&[u8]>) -> Result<Line, LineFault>
    ensures { Reads line_view result (send_verb (fields_left fields.entry)) }
{
    let (domid, bytes) = two_fields(fields)?;
    let domid = domid_field(domid)?;
    let bytes = hex_field(alloc, bytes)?;
    Ok(Line::Event(Event::Send { domid, bytes }))
}

/// `poke D WORD V`.
fn poke(fields: Option<&[u8]>) -> Result<Line, LineKind>
    ensures { seen line_view result ≡ poke_verb (fields_left fields.entry) }
{
    let (domid, which, value) = three_fields(fields)?;
    let domid = domid_field(domid)?;
    let which = which_field(which)?;
    let value = word_field(value)?;
    Ok(Line::Event(Event::Poke {
        domid,
        which,
        value,
    }))
}

/// `handover`.
fn handover(fields: Option<&[u8]>) -> Result<Line, LineKind>
    ensures { seen line_view result ≡ handover_verb (fields_left fields.entry) }
{
    no_field(fields)?;
    Ok(Line::Event(Event::Handover))
}

/// `domain D at I`.
fn domain(fields: Option<&[u8]>) -> Result<Line, LineKind>
    ensures { seen line_view result ≡ domain_line (fields_left fields.entry) }
{
    let (domid, at, start) = three_fields(fields)?;
    let domid = domid_field(domid)?;
    at_field(at)?;
    let start = word_field(start)?;
    Ok(Line::Domain(DomainLine { domid, start }))
}

/// `resume HEX`.
fn resume(alloc: Global, fields: Option<&[u8]>) -> Result<Line, LineFault>
    ensures { Reads line_view result (resume_verb (fields_left fields.entry)) }
{
    let field = one_field(fields)?;
    let bytes = hex_field(alloc, field)?;
    Ok(Line::Resume(bytes))
}
