//! Texts of records, each the bytes before its only NUL, and the paths that they are.

ghost use Rattle.std.specs.Prelude.{◌≡◌, ◌+◌, ◌<◌, length, take, drop, option_map, Some, None, IfOk, IfSome};
ghost use Rattle.xs_model.specs.Requests.{cut_string, one_string, is_special, is_watch_path, is_token};
ghost use Rattle.kept_model.specs.Loading.{absolute_of};

use std::alloc::Global;
use xs_base::NoMemory;
use xs_path::{Path, PathFault, is_path};

/// The most bytes of a token.
const TOKEN_MAX: usize = 1022;

/// The place of the first NUL.
fn first_nul(text: &[u8]) -> Option<usize>
    ensures cut { IfSome result (λ place. cut_string text.now ≡ Some (take place text.now, drop (place + 1) text.now)) }
    ensures within { IfSome result (λ place. place < length text.now) }
    ensures none { result ≡ None → cut_string text.now ≡ None }
{
    for (place, byte) in text.iter().enumerate() {
        if *byte == 0 {
            return Some(place);
        }
    }
    None
}

/// The text, if its only NUL is its last byte. O(its bytes).
pub fn one_string(text: &[u8]) -> Option<&[u8]>
    ensures { option_map (λ s. s.now) result ≡ one_string text.now }
{
    let place = first_nul(text)?;
    if place + 1 == text.len() {
        Some(&text[..place])
    } else {
        None
    }
}

/// Whether a text is one of the two special paths.
pub fn is_special(text: &[u8]) -> bool
    ensures { result ≡ is_special text.now }
{
    text == b"@introduceDomain".as_slice() || text == b"@releaseDomain".as_slice()
}

/// Whether a text is a path that a domain may watch, which it is for every domain or for none. O(its bytes).
pub fn is_watch_path(text: &[u8], domid: u16) -> bool
    ensures { result ≡ is_watch_path text.now domid }
{
    is_special(text) || is_path(text)
}

/// Whether a text is no longer than a token.
pub fn is_token(text: &[u8]) -> bool
    ensures { result ≡ is_token text.now }
{
    text.len() <= TOKEN_MAX
}

/// The absolute path that a text is, if it is one. O(its bytes).
pub fn absolute(alloc: Global, text: &[u8]) -> Result<Option<Path>, NoMemory>
    ensures { IfOk result (λ path. path ≡ absolute_of text.now) }
{
    if !text.starts_with(b"/") {
        return Ok(None);
    }
    match Path::read(alloc, text, 0) {
        Ok(path) => Ok(Some(path)),
        Err(PathFault::NoMemory) => Err(NoMemory),
        Err(_) => Ok(None),
    }
}
