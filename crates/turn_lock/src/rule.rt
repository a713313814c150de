//! The rule of the table that a lock keeps.
use crate::value::Turn;
use crate::view::{Locked, View};
use atomic_table::TableRule;
use std::marker::PhantomData;
use std::snapshot::Snapshot;

/// The rule of a ticket lock with one history. Its key is the value with which the lock was made.
pub struct TicketRule<V> {
    value: PhantomData<V>,
}

impl<V: Turn> TableRule<
    Option<Locked<V, V::Call, V::Answer>>,
    View<V::Call, V::Answer, V::Setting>,
    Snapshot<V>,
> for TicketRule<V> {
    ghost use Rattle.turn_lock.specs.Rule.{IsTicketLock};
    ghost use Rattle.turn_lock.specs.Views.{first_view};

    ghost holds = { λ key. IsTicketLock V.legal V.stands V.setting (V.setting key.value) };

    ghost first = { λ key. first_view (V.setting key.value) };
}
