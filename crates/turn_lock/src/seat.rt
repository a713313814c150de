//! A lock, its seats, and the receipt of its end.
ghost use Rattle.std.specs.Prelude.{◌≡◌};
ghost use Rattle.turn_lock.specs.Stages.{IsIdle};

use crate::rule::TicketRule;
use crate::value::Turn;
use crate::view::{Locked, View};
use atomic_table::Table;
use std::alloc::Global;
use std::snapshot::Snapshot;

/// A value that many seats call, each in its turn. Share it by reference or in an `Arc`.
#[derive(Drop)]
pub struct TurnLock<V: Turn> {
    // Word 0 is the ticket served next, word 1 the ticket drawn next, slot 0 the value.
    pub(crate) table: Table<
        Option<Locked<V, V::Call, V::Answer>>,
        View<V::Call, V::Answer, V::Setting>,
        Snapshot<V>,
        TicketRule<V>,
        Global,
    >,
    ghost two_words: { table.shared.table_id.words ≡ 2 },
    ghost one_slot: { table.shared.table_id.slots ≡ 1 },
}

/// The right of one caller to make calls, and what it knows of their history. It has no bytes.
///
/// A seat that is dropped keeps its share: the seats that are left never have share 1.
#[derive(Drop)]
pub struct Seat<V: Turn> {
    pub(crate) inner: atomic_table::Seat<
        Option<Locked<V, V::Call, V::Answer>>,
        View<V::Call, V::Answer, V::Setting>,
    >,
    ghost idle: { IsIdle inner.me },
}

/// What the seat knew that closed a lock. It has no bytes.
#[derive(Drop)]
pub struct Receipt<V: Turn> {
    pub(crate) seat: Snapshot<
        atomic_table::Seat<
            Option<Locked<V, V::Call, V::Answer>>,
            View<V::Call, V::Answer, V::Setting>,
        >,
    >,
}
