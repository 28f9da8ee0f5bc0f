//! The payloads of watches (xenstore.txt, "Watches").
//!
//! A payload outside its form is refused before memory is taken.

ghost use Rattle.std.specs.Prelude.{◌≡◌, List, ℕ, option_map};
ghost use Rattle.xs_model.specs.Requests as model;
ghost use Rattle.xs_model.specs.Requests.{Watch, Unwatch, is_special, is_watch_path, is_token, watch_request, or_einval};
ghost use Rattle.wire_codec.specs.Codec.{IsRequest};

use crate::payload;
use crate::request::{Request, RequestErr};
use std::alloc::Global;
use xs_base::Bytes;
use xs_path::is_path;

/// The most bytes of a token.
const TOKEN_MAX: usize = 1022;

/// WATCH: two strings, a watch path and a token. Bytes behind them are ignored.
pub fn watch(alloc: Global, payload: &[u8], domid: u16) -> Result<Request, RequestErr>
    ensures { IsRequest result (or_einval (watch_request Watch payload.now domid)) }
{
    let Some((wpath, token)) = watch_strings(payload) else {
        return Err(RequestErr::Einval);
    };
    let wpath = Bytes::copy(alloc, wpath)?;
    let token = Bytes::copy(alloc, token)?;
    Ok(Request::Watch { wpath, token })
}

/// UNWATCH: the same two strings. Bytes behind them are ignored.
pub fn unwatch(alloc: Global, payload: &[u8], domid: u16) -> Result<Request, RequestErr>
    ensures { IsRequest result (or_einval (watch_request Unwatch payload.now domid)) }
{
    let Some((wpath, token)) = watch_strings(payload) else {
        return Err(RequestErr::Einval);
    };
    let wpath = Bytes::copy(alloc, wpath)?;
    let token = Bytes::copy(alloc, token)?;
    Ok(Request::Unwatch { wpath, token })
}

/// The watch path and the token of a payload, as the domain sent them. It takes no memory.
fn watch_strings(payload: &[u8]) -> Option<(&[u8], &[u8])>
    ensures { (request : List ℕ → List ℕ → model.Request) (domid : ℕ)
        → option_map (λ both. request both.0.now both.1.now) result ≡ watch_request request payload.now domid }
{
    let (wpath, token, _ignored) = payload::two_strings(payload)?;
    if is_watch_path(wpath) && is_token(token) {
        Some((wpath, token))
    } else {
        None
    }
}

/// Whether bytes are a special path or a path, which they are for every domain or for none.
fn is_watch_path(bytes: &[u8]) -> bool
    ensures { (domid : ℕ) → result ≡ is_watch_path bytes.now domid }
{
    is_special(bytes) || is_path(bytes)
}

/// Whether bytes are a special path.
fn is_special(bytes: &[u8]) -> bool
    ensures { result ≡ is_special bytes.now }
{
    bytes == b"@introduceDomain".as_slice() || bytes == b"@releaseDomain".as_slice()
}

/// Whether bytes are a token.
fn is_token(bytes: &[u8]) -> bool
    ensures { result ≡ is_token bytes.now }
{
    bytes.len() <= TOKEN_MAX
}
