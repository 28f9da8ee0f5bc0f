//! Which words are a form of the program.

ghost use Rattle.std.specs.Prelude.{◌≡◌, map, string_bytes};
ghost use Rattle.xs_drive.specs.Forms.{count_in, form_of, one_word, seed_in, three_words};

use xs_base::read_decimal;

/// The most operations of a made script.
const COUNT_MAX: u64 = 20000;

/// What the program is asked for.
#[derive(Clone, Copy, Debug, PartialEq, Eq)]
pub enum Form {
    /// The source is a script to be played.
    Run,
    /// The script of this seed with so many operations is written.
    Make { seed: u64, count: u32 },
    /// It is played, and counts of what came of it are written.
    Bulk { seed: u64, count: u32 },
}

/// The form that the words are, if they are one.
pub fn form_of(words: &[String]) -> Option<Form>
    ensures { result ≡ form_of (map string_bytes words.now) }
{
    match words.len() {
        1 => one_word(words[0].as_bytes()),
        3 => three_words(
            words[0].as_bytes(),
            words[1].as_bytes(),
            words[2].as_bytes(),
        ),
        _ => None,
    }
}

fn one_word(word: &[u8]) -> Option<Form>
    ensures { result ≡ one_word word.now }
{
    if word == b"run".as_slice() {
        Some(Form::Run)
    } else {
        None
    }
}

fn three_words(word: &[u8], seed: &[u8], count: &[u8]) -> Option<Form>
    ensures { result ≡ three_words word.now seed.now count.now }
{
    if word == b"make".as_slice() {
        let seed = seed_in(seed)?;
        let count = count_in(count)?;
        return Some(Form::Make { seed, count });
    }
    if word == b"bulk".as_slice() {
        let seed = seed_in(seed)?;
        let count = count_in(count)?;
        return Some(Form::Bulk { seed, count });
    }
    None
}

fn seed_in(word: &[u8]) -> Option<u64>
    ensures { result ≡ seed_in word.now }
{
    read_decimal(word, u64::MAX).ok()
}

fn count_in(word: &[u8]) -> Option<u32>
    ensures { result ≡ count_in word.now }
{
    match read_decimal(word, COUNT_MAX) {
        Ok(0) => None,
        Ok(count) => Some(count as u32),
        Err(_fault) => None,
    }
}
