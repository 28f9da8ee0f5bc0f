//! Texts of absolute paths: where their names begin and end.

ghost use Rattle.std.specs.Prelude.{◌≡◌, ◌≢◌, ◌==◌, ◌+◌, ◌<◌, ◌≤◌, false, [], ◌∷◌, ◌++◌, length, drop, take, IfOk, slice_index};
ghost use Rattle.std.specs.List.{list_any};
ghost use Rattle.xs_model.specs.Paths.{absolute_path, parents, split_names, home, is_absolute, path_fault, is_below};
ghost use Rattle.xs_path.specs.Texts.{IsPathText};

use std::alloc::Global;
use std::fmt::Write;
use xs_base::NoMemory;

/// The most bytes of a domain's own directory with a slash behind it.
const HOME_MAX: usize = 20;

/// The text of a domain's relative path.
pub fn at_home(alloc: Global, bytes: &[u8], domid: u16) -> Result<Vec<u8>, NoMemory>
    requires domid { domid ≤ 32751 }
    requires relative { is_absolute bytes.now ≡ false }
    requires faultless { path_fault bytes.now ≡ None }
    ensures path { IfOk result (λ text. absolute_path text.items ≡ home domid ++ split_names bytes.now) }
    ensures text { IfOk result (λ text. IsPathText text.items) }
{
    let mut text = String::with_capacity(alloc, HOME_MAX + bytes.len())?;
    write!(text, "/local/domain/{domid}/")?;
    let mut text = text.into_bytes();
    text.extend_from_slice(bytes)?;
    Ok(text)
}

/// The number of names.
pub fn name_count(text: &[u8]) -> usize
    requires { IsPathText text.now }
    ensures { result ≡ length (absolute_path text.now) }
{
    if text.len() == 1 {
        return 0;
    }
    text.iter().filter(|byte| **byte == b'/').count()
}

/// The place of the last slash, behind which the last name stands.
pub fn last_slash(text: &[u8]) -> usize
    requires { IsPathText text.now }
    ensures within { result < length text.now }
    ensures slash { slice_index text.now result ≡ 47 }
    ensures last { list_any (λ b. b == 47) (drop (result + 1) text.now) ≡ false }
{
    let mut place = text.len() - 1;
    while text[place] != b'/' {
        place -= 1;
    }
    place
}

/// The text of the path without its last name.
pub fn parent_of(text: &[u8]) -> &[u8]
    requires text { IsPathText text.now }
    requires below { absolute_path text.now ≢ [] }
    ensures parent { absolute_path result.now ∷ [] ≡ parents (absolute_path text.now) }
    ensures text { IsPathText result.now }
    ensures front { result.now ≡ take (length result.now) text.now }
    ensures len { length result.now ≤ length text.now }
{
    &text[..last_slash(text).max(1)]
}

/// The text of the path of the first so many names.
pub fn prefix_of(text: &[u8], names: usize) -> &[u8]
    requires { IsPathText text.now }
    ensures path { absolute_path result.now ≡ take names (absolute_path text.now) }
    ensures text { IsPathText result.now }
{
    if names == 0 {
        return &text[..1];
    }
    let mut left = names;
    for place in 1..text.len() {
        if text[place] == b'/' {
            left -= 1;
            if left == 0 {
                return &text[..place];
            }
        }
    }
    text
}

/// Whether the path of the first text is that of the second or below it.
pub fn is_below(text: &[u8], other: &[u8]) -> bool
    requires text { IsPathText text.now }
    requires other { IsPathText other.now }
    ensures { result ≡ is_below (absolute_path other.now) (absolute_path text.now) }
{
    if other.len() == 1 {
        return true;
    }
    text.starts_with(other) && (text.len() == other.len() || text[other.len()] == b'/')
}
