//! Byte strings that contracts speak of and that take no memory.
ghost use Rattle.std.specs.Prelude.{◌≡◌, ℕ, List, [], ◌∷◌, ◌++◌};
ghost use Rattle.std.specs.Borrow.{ftrue};

use std::marker::Model;

/// The byte strings that an end was told, in order. They are proof data: at run time this is nothing.
#[derive(Debug, Drop)]
pub(crate) struct Told {
    pub ghost strings: { List (List ℕ) },
}

impl Model for Told {
    ghost also_owns = { λ _. ftrue };
}

impl Told {
    // No strings.
    pub(crate) fn new() -> Told
        ensures { result.strings ≡ [] }
    {
        Told {}
    }

    // One more string at the end.
    pub(crate) fn note(&mut self, _bytes: &[u8])
        ensures { self.new.strings ≡ self.old.strings ++ _bytes.now ∷ [] }
    {}
}
