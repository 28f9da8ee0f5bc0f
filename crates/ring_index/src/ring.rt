//! One ring of a page.

ghost use Rattle.std.specs.Prelude.{◌≡◌, ◌^◌, ◌<◌, ◌≤◌, ◌++◌, false, length, take, drop};
ghost use Rattle.world_model.specs.Rings.{empty_ring, free, filled, held, is_bad, put_all, take_some, used, with_cons, with_prod};
ghost use Rattle.ring_index.specs.Answers.{used_unless_bad, free_unless_bad};
ghost use Rattle.ring_index.specs.Pipes.{IsRing};

use crate::cells::{read_round, write_round};
use crate::index::{self, BadIndex, RING_SIZE};
use std::marker::Model;

/// A ring: who puts moves `prod`, who takes moves `cons`.
#[derive(Debug, Drop)]
pub(crate) struct Ring {
    cons: u32,
    prod: u32,
    cells: [u8; 1024],
}

impl Model for Ring {
    ghost use Rattle.std.specs.Prelude.{◌^◌, ◌<◌};
    ghost use Rattle.world_model.specs.Rings as rings;

    ghost Value = { rings.Ring };

    ghost view = { λ ring. record { cons = ring.cons; prod = ring.prod; cells = ring.cells } };

    ghost invariant = { λ ring. (ring.cons < 2 ^ 32) × (ring.prod < 2 ^ 32) };
}

impl Ring {
    /// A ring of zeros with no bytes in it, whose indices start here.
    pub(crate) fn empty(start: u32) -> Ring
        ensures { result ≡ empty_ring start }
    {
        Ring {
            cons: start,
            prod: start,
            cells: [0; 1024],
        }
    }

    /// Its `cons` and its `prod`.
    pub(crate) fn indices(&self) -> (u32, u32)
        ensures cons { result.0 ≡ self.now.cons }
        ensures prod { result.1 ≡ self.now.prod }
        ensures shape { IsRing self.now }
    {
        (self.cons, self.prod)
    }

    pub(crate) fn set_cons(&mut self, value: u32)
        ensures { self.new ≡ with_cons value self.old }
    {
        self.cons = value;
    }

    pub(crate) fn set_prod(&mut self, value: u32)
        ensures { self.new ≡ with_prod value self.old }
    {
        self.prod = value;
    }

    /// How many bytes it holds.
    pub(crate) fn used(&self) -> Result<u32, BadIndex>
        ensures { result ≡ used_unless_bad self.now }
    {
        index::used(self.prod, self.cons)
    }

    /// For how many bytes it has room.
    pub(crate) fn free(&self) -> Result<u32, BadIndex>
        ensures { result ≡ free_unless_bad self.now }
    {
        Ok(RING_SIZE - self.used()?)
    }

    /// Puts bytes for which there is room. O(their number).
    pub(crate) fn put(&mut self, bytes: &[u8])
        requires { length bytes.now ≤ free self.old }
        ensures after { self.new ≡ put_all bytes.now self.old }
        ensures content { held self.new ≡ held self.old ++ bytes.now }
    {
        let at = (self.prod % RING_SIZE) as usize;
        write_round(&mut self.cells, at, bytes);
        self.prod = self.prod.wrapping_add(bytes.len() as u32);
    }

    /// Takes bytes that are there. O(their number).
    pub(crate) fn take(&mut self, into: &mut [u8])
        requires { length into.old ≤ filled self.old }
        ensures bytes { into.new ≡ take (length into.old) (held self.old) }
        ensures after { self.new ≡ take_some (length into.old) self.old }
        ensures content { held self.new ≡ drop (length into.old) (held self.old) }
        ensures good { is_bad self.old ≡ false → is_bad self.new ≡ false }
    {
        let at = (self.cons % RING_SIZE) as usize;
        read_round(&self.cells, at, into);
        self.cons = self.cons.wrapping_add(into.len() as u32);
    }
}
