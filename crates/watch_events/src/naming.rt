//! How a watch names the path of an event.

ghost use Rattle.std.specs.Prelude.{◌≡◌, ◌≤◌, ℕ, List, length, drop};
ghost use Rattle.xs_model.specs.Paths.{home, is_absolute, text};
ghost use Rattle.xs_model.specs.Watches.{named_path};
ghost use Rattle.watch_table.specs.Tables.{watch_of};

use itoa::Buffer;
use xs_path::Path;

/// What stands before the number in a domain's home.
const HOMES: &[u8] = b"/local/domain/";

/// The path as a watch of this path names it: whole where the watch's own path is absolute, and else from behind its
/// domain's home on. O(1).
pub fn named<'a>(path: &'a Path, wpath: &[u8], domid: u16) -> &'a [u8]
    ensures name { (token : List ℕ) → result.now ≡ named_path domid (watch_of wpath.now token) path.now }
    ensures short { length result.now ≤ 3072 }
{
    if is_absolute(wpath) {
        path.bytes()
    } else {
        behind(path.bytes(), home_len(domid) + 1)
    }
}

/// Whether a path begins with a slash.
fn is_absolute(wpath: &[u8]) -> bool
    ensures { result ≡ is_absolute wpath.now }
{
    !wpath.is_empty() && wpath[0] == b'/'
}

/// The bytes from a place on, and none where there are no more.
fn behind(bytes: &[u8], place: usize) -> &[u8]
    ensures { result.now ≡ drop place bytes.now }
{
    &bytes[place.min(bytes.len())..]
}

/// The number of bytes of a domain's home.
fn home_len(domid: u16) -> usize
    ensures len { result ≡ length (text (home domid)) }
    ensures short { result ≤ 54 }
{
    let mut digits = Buffer::new();
    HOMES.len() + digits.format(domid).len()
}
