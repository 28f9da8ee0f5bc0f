//! What a seat at the table knows, and the rule of the table.

ghost use Rattle.store_turn.specs.Rule.{Kept, view, fresh, Draws, Looks, Gives, first_of, rest_of, both_of, spent};
ghost use Rattle.store_turn.specs.declared.views.Stage.TheVariants.{Idle};
ghost use Rattle.std.specs.Prelude.{Some};

use crate::desk::Desk;
use crate::history::Entry;
use crate::object::Object;
use atomic_table::{Join, Play, Split, TableRule};
use std::collections::LinkedList;
use std::marker::PhantomData;
use std::snapshot::Snapshot;

/// Where a caller is with its call. A ticket is counted from the first, and never wraps.
pub enum Stage {
    Idle,
    Waiting(u64),
    Serving(u64),
}

/// What is known of one caller. No value of it is made.
pub struct Known<O: Object> {
    pub number: u32,
    pub found: LinkedList<Entry<O>>,
    pub asked: LinkedList<(O::Op, u64)>,
}

/// What a seat at the table knows. No value of it is made.
pub struct View<O: Object> {
    pub stage: Stage,
    pub start: Option<O>,
    pub callers: u32,
    pub known: LinkedList<Known<O>>,
}

/// What the table is told when it is made.
#[derive(Drop)]
pub struct Terms<O: Object> {
    pub callers: u32,
    pub start: Snapshot<O>,
}

pub struct Tickets<O: Object> {
    object: PhantomData<O>,
}

impl<O: Object> TableRule<Desk<O>, View<O>, Terms<O>> for Tickets<O> {
    ghost holds = { λ key. Kept (λ desk. desk.entries.items) (λ desk. desk.start.value) key.start.value key.callers };

    ghost first = { λ key. view Idle (Some key.start.value) key.callers (fresh 0 key.callers) };
}

/// A ticket is drawn.
pub struct Draw;

impl<O: Object> Play<Desk<O>, View<O>> for Draw {
    ghost then = { Draws };
}

/// The served ticket is read, and the slot taken where it is the own one.
pub struct Look;

impl<O: Object> Play<Desk<O>, View<O>> for Look {
    ghost then = { Looks (λ desk. desk.entries.items) (λ desk. desk.start.value) };
}

/// The slot is given back, and the next ticket served.
pub struct Give;

impl<O: Object> Play<Desk<O>, View<O>> for Give {
    ghost then = { Gives (λ desk. desk.entries.items) (λ desk. desk.last) };
}

/// One caller's part is cut off.
pub struct Deal;

impl<O: Object> Split<View<O>> for Deal {
    ghost left = { rest_of };

    ghost right = { first_of };
}

/// A caller's part comes back.
pub struct Gather;

impl<O: Object> Join<View<O>> for Gather {
    ghost both = { both_of };

    ghost spent = { spent };
}
