//! A list of bytes.
ghost use Rattle.std.specs.Prelude.{◌≡◌, ℕ, ◌==◌, List, [], ◌++◌, length, IfOk, OnOk, OnErr, nat_eq};
ghost use Rattle.std.specs.Cmp.{partial_equiv_from_equiv};
ghost use Rattle.std.specs.Cmp.Lexicographic.{pointwise, nat_list_eq_equiv};

use crate::NoMemory;
use std::alloc::Global;
use std::marker::Model;

/// A list of bytes, which grows at its end.
#[derive(Debug, Drop)]
pub struct Bytes {
    pub(crate) items: Vec<u8>,
}

impl Model for Bytes {
    ghost Value = { List ℕ };

    ghost view = { λ bytes. bytes.items.items };
}

impl Bytes {
    /// No bytes. It takes no memory until the first push.
    pub fn new(alloc: Global) -> Bytes
        ensures { result ≡ [] }
    {
        Bytes {
            items: Vec::new(alloc),
        }
    }

    /// The bytes of a vector, which are moved and not copied.
    pub fn from_vec(items: Vec<u8>) -> Bytes
        ensures { result ≡ items.items }
    {
        Bytes { items }
    }

    /// A copy of these bytes. O(their number).
    pub fn copy(alloc: Global, from: &[u8]) -> Result<Bytes, NoMemory>
        ensures { IfOk result (λ bytes. bytes ≡ from.now) }
    {
        Ok(Bytes {
            items: Vec::from_slice(alloc, from)?,
        })
    }

    /// All the bytes.
    pub fn as_slice(&self) -> &[u8]
        ensures { result.now ≡ self.now }
    {
        self.items.as_slice()
    }

    /// How many bytes there are. O(1).
    pub fn len(&self) -> usize
        ensures { result ≡ length self.now }
    {
        self.items.len()
    }

    /// Whether there is no byte.
    pub fn is_empty(&self) -> bool
        ensures { result ≡ (length self.now == 0) }
    {
        self.items.is_empty()
    }

    /// Appends the bytes. Refused, it is as before. O(their number) on average.
    pub fn push(&mut self, more: &[u8]) -> Result<(), NoMemory>
        ensures ok { OnOk result (self.new ≡ self.old ++ more.now) }
        ensures err { OnErr result (self.new ≡ self.old) }
    {
        self.items.extend_from_slice(more)
    }

    /// Removes all bytes. It keeps its memory. O(1).
    pub fn clear(&mut self)
        ensures { self.new ≡ [] }
    {
        self.items.clear();
    }
}

impl PartialEq for Bytes {
    ghost eq = { pointwise nat_eq };

    ghost laws = { partial_equiv_from_equiv nat_list_eq_equiv };

    fn eq(&self, other: &Bytes) -> bool {
        self.items == other.items
    }
}

impl Eq for Bytes {
    ghost laws = { nat_list_eq_equiv };
}
