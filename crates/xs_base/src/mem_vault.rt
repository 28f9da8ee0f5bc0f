//! A vault in memory, some of whose calls fail, and some of whose answers are other bytes.
ghost use Rattle.std.specs.Prelude.{◌≡◌, ◌+◌, [], ◌∷◌, ◌++◌, ◌↔◌, true, Some, None, Err, IfOk, OnOk, OnErr, slice_get, refl};
ghost use Rattle.std.specs.Option.{option_map};
ghost use Rattle.xs_base.specs.Faults.{NeverFalls, Rose};
ghost use Rattle.xs_base.specs.MemVault.{VaultState, altered, altered_by, in_place, next_given, gives_back};
ghost use Rattle.xs_base.specs.Tally.{after_call, is_due};
ghost use Rattle.xs_base.specs.Vault.{last_put};

use crate::call_tally::CallTally;
use crate::told::Told;
use crate::{Bytes, Calls, Items, NoMemory, Vault, VaultErr};
use std::alloc::Global;
use std::marker::Model;

/// The get of this number, counted from 0, gives this byte at this place.
#[derive(Clone, Copy, Debug, PartialEq, Eq)]
pub struct Alter {
    pub get: u64,
    pub at: usize,
    pub byte: u8,
}

/// What is altered; of two alters of one place the later one counts.
pub type Alters = Items<Alter>;

/// Keeps all strings that were put, for tests. The puts and gets of stated numbers fail, and a get may give other bytes than
/// those that were put last.
#[derive(Debug, Drop)]
pub struct MemVault {
    alloc: Global,
    puts: Items<Bytes>,
    gets: Told,
    put_tally: CallTally,
    get_tally: CallTally,
    alters: Alters,
    other: Option<(u64, Bytes)>,
}

impl Model for MemVault {
    ghost Value = { VaultState };

    ghost view = { λ vault. record {
      puts = vault.puts;
      gets = vault.gets.strings;
      put_tally = vault.put_tally;
      get_tally = vault.get_tally;
      alters = vault.alters;
      other = vault.other;
    } };
}

impl MemVault {
    /// A vault into which nothing was put. The puts and gets of these numbers fail, counted from 0, failed ones included. It
    /// takes no memory.
    pub fn new(alloc: Global, put_fails: Calls, get_fails: Calls, alters: Alters) -> MemVault
        ensures puts { result.puts ≡ [] }
        ensures gets { result.gets ≡ [] }
        ensures put_tally { result.put_tally ≡ record { fails = put_fails; calls = 0; faults = 0 } }
        ensures get_tally { result.get_tally ≡ record { fails = get_fails; calls = 0; faults = 0 } }
        ensures alters { result.alters ≡ alters }
        ensures other { result.other ≡ None }
    {
        MemVault {
            alloc,
            puts: Items::new(alloc),
            gets: Told::new(),
            put_tally: CallTally::new(put_fails),
            get_tally: CallTally::new(get_fails),
            alters,
            other: None,
        }
    }

    /// From now on the get of this number gives these bytes, in place of what it would give. They take the place of those
    /// that an earlier call named. It takes no memory.
    pub fn give(&mut self, get: u64, bytes: Bytes)
        ensures { self.new ≡ record self.old { other = Some (get, bytes) } }
    {
        self.other = Some((get, bytes));
    }

    /// The string that was put at this place, counted from 0, if there was one. O(1).
    pub fn put_at(&self, place: usize) -> Option<&[u8]>
        ensures { option_map (λ bytes. bytes.now) result ≡ slice_get self.now.puts place }
    {
        let bytes = self.puts.at(place)?;
        Some(bytes.as_slice())
    }
}

impl Vault for MemVault {
    ghost puts = { λ vault. Some vault.puts };

    ghost gets = { λ vault. Some vault.gets };

    ghost faults = { λ vault. vault.put_tally.faults + vault.get_tally.faults };

    ghost honest = { gives_back };

    ghost tells = { λ _ _. (refl, refl) };

    /// Keeps a copy, unless it fails by its number. O(number of bytes).
    fn put(&mut self, bytes: &[u8]) -> Result<(), VaultErr>
        ensures ok { OnOk result (self.new.puts ≡ self.old.puts ++ bytes.now ∷ []) }
        ensures err { OnErr result (self.new.puts ≡ self.old.puts) }
        ensures gets { self.new.gets ≡ self.old.gets }
        ensures still { (self.new.alters ≡ self.old.alters) × (self.new.other ≡ self.old.other) }
        ensures counts { NeverFalls (self.old.put_tally.faults + self.old.get_tally.faults) (self.new.put_tally.faults + self.new.get_tally.faults) }
        ensures failed { result ≡ Err VaultErr.Failed → Rose (self.old.put_tally.faults + self.old.get_tally.faults) (self.new.put_tally.faults + self.new.get_tally.faults) }
        ensures due { (result ≡ Err VaultErr.Failed) ↔ (is_due self.old.put_tally ≡ true) }
        ensures tally { self.new.put_tally ≡ after_call self.old.put_tally (is_due self.old.put_tally) }
        ensures other_tally { self.new.get_tally ≡ self.old.get_tally }
    {
        let failed = self.put_tally.is_due();
        self.put_tally.count(failed);
        if failed {
            return Err(VaultErr::Failed);
        }
        let copied = Bytes::copy(self.alloc, bytes)?;
        self.puts.push(copied)?;
        Ok(())
    }

    /// Gives a copy of what was put last, with what is altered, unless it fails by its number. O(number of bytes and alters).
    fn get(&mut self) -> Result<Bytes, VaultErr>
        ensures gives { IfOk result (λ bytes. bytes ≡ next_given self.old) }
        ensures ok { IfOk result (λ bytes. self.new.gets ≡ self.old.gets ++ bytes ∷ []) }
        ensures err { OnErr result (self.new.gets ≡ self.old.gets) }
        ensures puts { self.new.puts ≡ self.old.puts }
        ensures still { (self.new.alters ≡ self.old.alters) × (self.new.other ≡ self.old.other) }
        ensures counts { NeverFalls (self.old.put_tally.faults + self.old.get_tally.faults) (self.new.put_tally.faults + self.new.get_tally.faults) }
        ensures failed { result ≡ Err VaultErr.Failed → Rose (self.old.put_tally.faults + self.old.get_tally.faults) (self.new.put_tally.faults + self.new.get_tally.faults) }
        ensures due { (result ≡ Err VaultErr.Failed) ↔ (is_due self.old.get_tally ≡ true) }
        ensures tally { self.new.get_tally ≡ after_call self.old.get_tally (is_due self.old.get_tally) }
        ensures other_tally { self.new.put_tally ≡ self.old.put_tally }
    {
        let number = self.get_tally.calls();
        let failed = self.get_tally.is_due();
        self.get_tally.count(failed);
        if failed {
            return Err(VaultErr::Failed);
        }
        let given = next_given(
            self.alloc,
            last(&self.puts),
            &self.alters,
            &self.other,
            number,
        )?;
        self.gets.note(given.as_slice());
        Ok(given)
    }
}

/// The string that was put last, and the empty one where none was.
fn last(puts: &Items<Bytes>) -> &[u8]
    ensures { result.now ≡ last_put puts.now }
{
    match puts.as_slice().last() {
        Some(bytes) => bytes.as_slice(),
        None => &[],
    }
}

/// What the get of this number gives where this string was put last.
fn next_given(
    alloc: Global,
    last: &[u8],
    alters: &Alters,
    other: &Option<(u64, Bytes)>,
    number: u64,
) -> Result<Bytes, NoMemory>
    ensures { IfOk result (λ bytes. bytes ≡ in_place number other.now (altered number alters.now last.now)) }
{
    if let Some((get, bytes)) = other {
        if *get == number {
            return Bytes::copy(alloc, bytes.as_slice());
        }
    }
    let mut given = Vec::from_slice(alloc, last)?;
    alter_all(&mut given, alters.as_slice(), number);
    Ok(Bytes::from_vec(given))
}

/// Alters a string as the get of this number does.
fn alter_all(given: &mut Vec<u8>, alters: &[Alter], number: u64)
    ensures { given.new.items ≡ altered number alters.now given.old.items }
{
    for alter in alters {
        alter_by(given, alter, number);
    }
}

/// Alters one byte, where it is the get of this number that does.
fn alter_by(given: &mut Vec<u8>, alter: &Alter, number: u64)
    ensures { given.new.items ≡ altered_by number alter.now given.old.items }
{
    if alter.get == number && alter.at < given.len() {
        given[alter.at] = alter.byte;
    }
}
