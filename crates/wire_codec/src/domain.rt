//! The payloads that name domains (xenstore.txt, "Domain management requests").
//!
//! Each is read in O(length of the payload) and takes no memory. A payload outside its form asks for nothing.

ghost use Rattle.std.specs.Prelude.{◌≡◌, ◌≤◌, IfSome, option_map, option_and_then};
ghost use Rattle.text_model.specs.Decimal.{number_of};
ghost use Rattle.xs_model.specs.Requests.{DomainPath, IsIntroduced, ok_value, one_string, domid_of, introduce_request, release_request, domid_request, target_request};
ghost use Rattle.wire_codec.specs.Codec.{request_view, AsksInForm};

use crate::payload;
use crate::request::Request;
use xs_base::read_decimal;

/// The greatest domid.
const DOMID_MAX: u64 = 32_751;

/// INTRODUCE: three strings, a domid, a frame number and an event channel. The frame number is not kept, and bytes
/// behind the strings are ignored.
pub fn introduce(payload: &[u8]) -> Option<Request>
    ensures asked { option_map request_view result ≡ introduce_request payload.now }
    ensures in_form { IfSome result AsksInForm }
{
    let (first, second, rest) = payload::two_strings(payload)?;
    let (third, _ignored) = payload::cut_string(rest)?;
    let domid = domid_in(first)?;
    let _frame = frame(second)?;
    let evtchn = event_channel(third)?;
    Some(Request::Introduce { domid, evtchn })
}

/// RELEASE: exactly one string, a domid other than 0.
pub fn release(payload: &[u8]) -> Option<Request>
    ensures asked { option_map request_view result ≡ release_request payload.now }
    ensures in_form { IfSome result AsksInForm }
{
    let domid = one_domid(payload)?;
    if domid == 0 {
        return None;
    }
    Some(Request::Release { domid })
}

/// GET_DOMAIN_PATH: exactly one string, a domid.
pub fn domain_path(payload: &[u8]) -> Option<Request>
    ensures asked { option_map request_view result ≡ domid_request DomainPath payload.now }
    ensures in_form { IfSome result AsksInForm }
{
    let domid = one_domid(payload)?;
    Some(Request::DomainPath { domid })
}

/// IS_DOMAIN_INTRODUCED: exactly one string, a domid.
pub fn is_introduced(payload: &[u8]) -> Option<Request>
    ensures asked { option_map request_view result ≡ domid_request IsIntroduced payload.now }
    ensures in_form { IfSome result AsksInForm }
{
    let domid = one_domid(payload)?;
    Some(Request::IsIntroduced { domid })
}

/// SET_TARGET: exactly two strings, the domids of the domain that gets a target, and of this target.
pub fn set_target(payload: &[u8]) -> Option<Request>
    ensures asked { option_map request_view result ≡ target_request payload.now }
    ensures in_form { IfSome result AsksInForm }
{
    let (first, second, rest) = payload::two_strings(payload)?;
    if !rest.is_empty() {
        return None;
    }
    let domid = domid_in(first)?;
    let target = domid_in(second)?;
    Some(Request::SetTarget { domid, target })
}

/// The domid of a payload that is exactly one string.
fn one_domid(payload: &[u8]) -> Option<u16>
    ensures domid { result ≡ option_and_then domid_of (one_string payload.now) }
    ensures within { IfSome result (λ domid. domid ≤ 32751) }
{
    let bytes = payload::one_string(payload)?;
    domid_in(bytes)
}

/// The domid that a string is: a decimal number of at most 32751.
fn domid_in(bytes: &[u8]) -> Option<u16>
    ensures domid { result ≡ domid_of bytes.now }
    ensures within { IfSome result (λ domid. domid ≤ 32751) }
{
    match read_decimal(bytes, DOMID_MAX) {
        Ok(domid) => Some(domid as u16),
        Err(_) => None,
    }
}

/// The frame number that a string is, of 64 bits.
fn frame(bytes: &[u8]) -> Option<u64>
    ensures { result ≡ ok_value (number_of 18446744073709551615 bytes.now) }
{
    match read_decimal(bytes, u64::MAX) {
        Ok(frame) => Some(frame),
        Err(_) => None,
    }
}

/// The event channel that a string is, of 32 bits.
fn event_channel(bytes: &[u8]) -> Option<u32>
    ensures { result ≡ ok_value (number_of 4294967295 bytes.now) }
{
    match read_decimal(bytes, u64::from(u32::MAX)) {
        Ok(channel) => Some(channel as u32),
        Err(_) => None,
    }
}
