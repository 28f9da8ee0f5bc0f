//! The first fault of the bytes of a path.

ghost use Rattle.std.specs.Prelude.{◌≡◌, ◌<◌, ℕ, length};
ghost use Rattle.xs_model.specs.Paths.{path_of, path_fault, path_limit, is_path_byte, fault_from, trailing_fault};
ghost use Rattle.xs_model.specs.Requests.{is_ok_path};

use xs_model::path::PathFault;

/// The most bytes of an absolute path.
const ABSOLUTE_MAX: usize = 3072;

/// The most bytes of a relative path.
const RELATIVE_MAX: usize = 2048;

/// Whether bytes are a path, which they are for every domain or for none. It takes no memory. Costs O(bytes).
pub fn is_path(bytes: &[u8]) -> bool
    ensures { (domid : ℕ) → result ≡ is_ok_path (path_of bytes.now domid) }
{
    first_fault(bytes).is_none()
}

/// The first fault of the bytes of a path, if they have one. Costs O(1) for a path that is too long,
/// else O(bytes).
pub fn first_fault(bytes: &[u8]) -> Option<PathFault>
    ensures { result ≡ path_fault bytes.now }
{
    if bytes.is_empty() {
        return Some(PathFault::Empty);
    }
    if bytes.len() > limit_of(bytes) {
        return Some(PathFault::TooLong { len: bytes.len() });
    }
    first_bad_place(bytes).or(slash_at_end(bytes))
}

/// The most bytes that such a path may have.
fn limit_of(bytes: &[u8]) -> usize
    requires { 0 < length bytes.now }
    ensures { result ≡ path_limit bytes.now }
{
    if bytes[0] == b'/' {
        ABSOLUTE_MAX
    } else {
        RELATIVE_MAX
    }
}

/// Whether a path may have the byte.
fn is_path_byte(byte: u8) -> bool
    ensures { result ≡ is_path_byte byte }
{
    matches!(byte, b'a'..=b'z' | b'A'..=b'Z' | b'0'..=b'9' | b'-' | b'/' | b'_' | b'@')
}

/// The leftmost place at fault.
fn first_bad_place(bytes: &[u8]) -> Option<PathFault>
    ensures { result ≡ fault_from 0 0 bytes.now }
{
    let mut before = 0;
    for (at, byte) in bytes.iter().enumerate() {
        let byte = *byte;
        if !is_path_byte(byte) || (at == 0 && byte == b'@') {
            return Some(PathFault::BadByte { at });
        }
        if before == b'/' && byte == b'/' {
            return Some(PathFault::DoubleSlash { at });
        }
        before = byte;
    }
    None
}

/// A slash as the last byte of two or more.
fn slash_at_end(bytes: &[u8]) -> Option<PathFault>
    requires { 0 < length bytes.now }
    ensures { result ≡ trailing_fault bytes.now }
{
    if bytes.len() > 1 && bytes[bytes.len() - 1] == b'/' {
        Some(PathFault::TrailingSlash)
    } else {
        None
    }
}
