//! Lines of a text.

ghost use Rattle.std.specs.Prelude.{◌≡◌, ◌+◌, ◌<◌, ◌∷◌, [], MatchOption, length, drop};
ghost use Rattle.world_model.specs.Lines.{lines_of};

use memchr::memchr;

/// The first line of a text, without its line feed, and what follows it; an empty text has none. The last
/// line may lack its line feed, and a line feed at the end opens no further line. O(length of the line).
#[tactic(auto, using(crate::proofs::LineLemmas::first_line, crate::proofs::LineLemmas::only_line))]
pub fn cut_line(text: &[u8]) -> Option<(&[u8], &[u8])>
    ensures { MatchOption result (text.now ≡ []) (λ cut.
        (lines_of text.now ≡ cut.0.now ∷ lines_of cut.1.now) × (length cut.1.now < length text.now)) }
{
    if text.is_empty() {
        return None;
    }
    match memchr(b'\n', text) {
        Some(end) => Some((&text[..end], behind(text, end))),
        None => Some((text, &text[text.len()..])),
    }
}

/// The bytes behind a place.
pub fn behind(bytes: &[u8], i: usize) -> &[u8]
    requires { i < length bytes.now }
    ensures { result.now ≡ drop (i + 1) bytes.now }
{
    &bytes[i + 1..]
}
