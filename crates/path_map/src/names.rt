//! Names on the way from one path down to another.

ghost use Rattle.std.specs.Prelude.{◌≡◌, ◌==◌, ◌<◌, ◌+◌, true, false, ◌∷◌, ◌++◌, length, drop, position, Ok, IfSome};
ghost use Rattle.std.specs.List.{before_first};
ghost use Rattle.std.specs.Option.{option_copied};
ghost use Rattle.xs_model.specs.Paths.{names_below, names_text, text, path_of, is_below, same_path};
ghost use Rattle.path_map.specs.Marks.{is_above, is_past, first_below};

use xs_path::Path;

/// Whether an entry's path stands behind `path`, and behind all that is at and below its child `leaf` if that is not
/// empty. Costs O(bytes).
pub fn is_past(entry: &Path, path: &Path, leaf: &[u8]) -> bool
    ensures { result ≡ is_past path.now leaf.now entry.now }
{
    match name_below(entry, path) {
        Some(name) => is_above(leaf, name),
        None => path.lt(entry),
    }
}

/// Whether a name stands above the leaf; each stands above an empty one.
fn is_above(leaf: &[u8], name: &[u8]) -> bool
    ensures { result ≡ is_above leaf.now name.now }
{
    leaf.is_empty() || leaf.cmp(name).is_lt()
}

/// The first name on the way from a path down to an entry's path, if that is below it. Costs O(bytes).
pub fn name_below<'a>(entry: &'a Path, path: &Path) -> Option<&'a [u8]>
    ensures name { option_copied result ≡ first_below (names_below path.now entry.now) }
    ensures spelled { IfSome result (λ name. path_of (text entry.now) 0 ≡ Ok entry.now) }
{
    if !entry.is_below(path) {
        return None;
    }
    if entry.eq(path) {
        return None;
    }
    Some(to_slash(text_below(entry, path)))
}

/// What follows a path and a slash in the text of a path below it.
fn text_below<'a>(entry: &'a Path, path: &Path) -> &'a [u8]
    requires below { is_below path.now entry.now ≡ true }
    requires other { same_path entry.now path.now ≡ false }
    ensures text { names_text entry.now ≡ names_text path.now ++ 47 ∷ result.now }
    ensures spelled { path_of (text entry.now) 0 ≡ Ok entry.now }
{
    let before = names_len(path);
    behind(entry.bytes(), before)
}

/// The bytes behind a place.
fn behind(bytes: &[u8], place: usize) -> &[u8]
    requires { place < length bytes.now }
    ensures { result.now ≡ drop (place + 1) bytes.now }
{
    &bytes[place + 1..]
}

/// The number of bytes of a path's names, each with the slash before it.
fn names_len(path: &Path) -> usize
    ensures { result ≡ length (names_text path.now) }
{
    if path.is_root() {
        0
    } else {
        path.bytes().len()
    }
}

/// What stands before the first slash, or all where there is none.
fn to_slash(text: &[u8]) -> &[u8]
    ensures { result.now ≡ before_first (λ b. b == 47) text.now }
{
    match first_slash(text) {
        Some(place) => &text[..place],
        None => text,
    }
}

/// The place of the first slash.
fn first_slash(text: &[u8]) -> Option<usize>
    ensures { result ≡ position (λ b. b == 47) text.now }
{
    text.iter().position(|byte| *byte == b'/')
}
