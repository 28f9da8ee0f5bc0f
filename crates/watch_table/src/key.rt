//! Watches as strings of bytes, by which they are found.

ghost use Rattle.std.specs.Prelude.{◌≡◌, ◌<◌, ◌≤◌, length, IfSome, IfNone, IfOk};
ghost use Rattle.watch_table.specs.Tables.{watch_of};
ghost use Rattle.watch_table.specs.Keys.{joined, path_in, token_in, IsKey};

use crate::NoMemory;
use arrayvec::ArrayVec;
use std::alloc::Global;

/// The most bytes of a key: two, a path of 3072 and a token of 1022.
pub const KEY_MAX: usize = 4096;

/// The key of a watch, which lies in the value itself and takes no memory elsewhere; none where it is longer than any
/// that is kept. O(its bytes).
pub fn of_watch(wpath: &[u8], token: &[u8]) -> Option<ArrayVec<u8, KEY_MAX>>
    ensures key { IfSome result (λ key. key.items ≡ joined (watch_of wpath.now token.now)) }
    ensures long { IfNone result (4096 < length (joined (watch_of wpath.now token.now))) }
{
    let path_len = u16::try_from(wpath.len()).ok()?;
    let mut key = ArrayVec::new();
    key.try_extend_from_slice(&path_len.to_be_bytes()).ok()?;
    key.try_extend_from_slice(wpath).ok()?;
    key.try_extend_from_slice(token).ok()?;
    Some(key)
}

/// The key of a watch that is no longer than a domain may ask for, to be kept. O(its bytes).
pub fn to_keep(alloc: Global, wpath: &[u8], token: &[u8]) -> Result<Vec<u8>, NoMemory>
    requires { length (joined (watch_of wpath.now token.now)) ≤ 4096 }
    ensures { IfOk result (λ key. key.items ≡ joined (watch_of wpath.now token.now)) }
{
    let key = of_watch(wpath, token).unwrap();
    Vec::from_slice(alloc, key.as_slice())
}

/// The path and the token in a key. O(1).
pub fn parts(key: &[u8]) -> (&[u8], &[u8])
    requires { IsKey key.now }
    ensures wpath { result.0.now ≡ path_in key.now }
    ensures token { result.1.now ≡ token_in key.now }
{
    let path_len = usize::from(u16::from_be_bytes([key[0], key[1]]));
    key[2..].split_at(path_len)
}
