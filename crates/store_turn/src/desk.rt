//! What lies in the slot: the object, beside its history.

ghost use Rattle.std.specs.Prelude.{◌≡◌, true, false, None, Some, [], IfOk, IsSomeAnd, OnErr};
ghost use Rattle.store_turn.specs.Calls.{after, is_loud, noted, entry};

use crate::history::Entry;
use crate::object::{NoMemory, Object};
use std::alloc::Global;
use std::snapshot::Snapshot;

/// The object with the history of its calls. `last` is the op of the last call, if it was answered, for proofs alone.
#[derive(Drop)]
pub struct Desk<O: Object> {
    pub object: O,
    pub entries: Vec<Entry<O>>,
    pub last: Option<Snapshot<O::Op>>,
    pub start: Snapshot<O>,
    ghost replays: { object ≡ after O.next start.value entries.items },
    ghost loud: { is_loud O.next O.answer O.is_quiet start.value entries.items ≡ true },
}

impl<O: Object> Desk<O> {
    /// An object that was not called yet. It takes no memory.
    pub fn new(alloc: Global, object: O) -> Desk<O>
        ensures { (result.start.value ≡ object) × (result.object ≡ object) × (result.entries.items ≡ []) }
    {
        Desk {
            start: Snapshot::of(&object),
            object,
            entries: Vec::new(alloc),
            last: None,
        }
    }

    /// Does one call. Room for its entry is taken before the object changes.
    pub fn serve(&mut self, number: u32, op: O::Op) -> Result<O::Answer, NoMemory>
        requires { O.fits op }
        ensures start { self.new.start ≡ self.old.start }
        ensures answer { IfOk result (λ given. given ≡ O.answer (after O.next self.old.start.value self.old.entries.items) op) }
        ensures entries { IfOk result (λ given. self.new.entries.items ≡ noted (O.is_quiet given) (entry number op) self.old.entries.items) }
        ensures last { IfOk result (λ _. IsSomeAnd self.new.last (λ last. last.value ≡ op)) }
        ensures err { OnErr result (self.new.entries.items ≡ self.old.entries.items) }
        ensures none { OnErr result (self.new.last ≡ None) }
    {
        self.last = None;
        self.entries.reserve(1)?;
        let given = self.object.apply(&op)?;
        self.last = Some(Snapshot::of(&op));
        let aloud = !O::quiet(&given);
        if aloud {
            self.entries.push_reserved(Entry { caller: number, op });
        }
        Ok(given)
    }
}
