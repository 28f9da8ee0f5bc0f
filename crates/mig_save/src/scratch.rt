//! What records are made ready in, one after the other, so that no record takes memory of its own.

ghost use Rattle.std.specs.Prelude.{◌≡◌, map, OnOk};
ghost use Rattle.xs_model.specs.Messages.{string};
ghost use Rattle.kept_model.specs.Said.{letter_byte, flags_of, raw_of};

use mig_records::RawPerm;
use std::alloc::Global;
use xs_base::{Bytes, NoMemory};
use xs_perms::{Letter, Perm};

/// Two texts and a list of entries. They keep their memory.
#[derive(Drop)]
pub struct Scratch {
    pub path: Bytes,
    pub token: Bytes,
    pub perms: Vec<RawPerm>,
}

impl Scratch {
    /// Nothing yet. It takes no memory.
    pub fn new(alloc: Global) -> Scratch {
        Scratch {
            path: Bytes::new(alloc),
            token: Bytes::new(alloc),
            perms: Vec::new(alloc),
        }
    }
}

/// Puts a text in the place of the one that was there, with the NUL that ends it. O(its bytes).
pub fn set_string(into: &mut Bytes, text: &[u8]) -> Result<(), NoMemory>
    ensures { OnOk result (into.new ≡ string text.now) }
{
    into.clear();
    into.push(text)?;
    into.push(b"\x00")
}

fn letter_byte(letter: Letter) -> u8
    ensures { result ≡ letter_byte letter }
{
    match letter {
        Letter::W => b'w',
        Letter::R => b'r',
        Letter::B => b'b',
        Letter::N => b'n',
    }
}

fn flags_of(stale: bool) -> u8
    ensures { result ≡ flags_of stale }
{
    u8::from(stale)
}

fn raw_of(perm: Perm) -> RawPerm
    ensures { result ≡ raw_of perm }
{
    RawPerm {
        letter: letter_byte(perm.letter),
        flags: flags_of(perm.stale),
        domid: perm.domid,
    }
}

/// Puts entries in the place of those that were there. O(their number).
pub fn set_perms(into: &mut Vec<RawPerm>, perms: &[Perm]) -> Result<(), NoMemory>
    ensures { OnOk result (into.new.items ≡ map raw_of perms.now) }
{
    into.clear();
    for perm in perms {
        into.push(raw_of(*perm))?;
    }
    Ok(())
}
