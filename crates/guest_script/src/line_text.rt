//! A line that is made before it is printed.

ghost use Rattle.std.specs.Prelude.{◌≡◌, ◌+◌, ◌≤◌, ◌∷◌, ◌++◌, [], length, decimal};

use itoa::write_digits;
use std::marker::Model;

/// The most bytes of a line, the bytes of a take in hexadecimal aside.
pub const LINE_ROOM: usize = 160;

/// The most digits of a number.
pub const NUMBER_ROOM: usize = 20;

/// A text that grows at its front, in a place of its own. It takes no memory.
#[derive(Drop)]
pub struct LineText {
    room: [u8; LINE_ROOM],
    start: usize,
}

impl Model for LineText {
    ghost use Rattle.std.specs.Prelude.{ℕ, List, ◌≤◌, drop};

    ghost Value = { List ℕ };

    ghost view = { λ text. drop text.start text.room };

    ghost invariant = { λ text. text.start ≤ 160 };
}

impl LineText {
    /// No text.
    pub fn new() -> LineText
        ensures { result ≡ [] }
    {
        LineText {
            room: [0; LINE_ROOM],
            start: LINE_ROOM,
        }
    }

    /// The text.
    pub fn as_slice(&self) -> &[u8]
        ensures { result.now ≡ self.now }
    {
        &self.room[self.start..]
    }

    /// Puts words before the text. O(their length).
    pub fn put_words(&mut self, words: &[u8])
        requires { length words.now + length self.old ≤ LINE_ROOM }
        ensures text { self.new ≡ words.now ++ self.old }
        ensures len { length self.new ≡ length words.now + length self.old }
    {
        let end = self.start;
        let start = end - words.len();
        self.room[start..end].copy_from_slice(words);
        self.start = start;
    }

    /// Puts a number before the text. O(1).
    pub fn put_number(&mut self, number: u64)
        requires { NUMBER_ROOM + length self.old ≤ LINE_ROOM }
        ensures text { self.new ≡ decimal number ++ self.old }
        ensures len { length self.new ≤ NUMBER_ROOM + length self.old }
    {
        self.start = write_digits(number, &mut self.room, self.start);
    }
}
