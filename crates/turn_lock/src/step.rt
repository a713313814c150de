//! The kinds of step, one type each. What a step tells its seat stands in `specs/Steps.antt`.
use crate::value::Turn;
use crate::view::{Locked, View};
use atomic_table::{Join, Play, Split};
use std::marker::PhantomData;

/// Compare-exchange of word 1: draws a ticket.
pub(crate) struct Draw;

impl<V, C, A, T> Play<Option<Locked<V, C, A>>, View<C, A, T>> for Draw {
    ghost use Rattle.turn_lock.specs.Steps.{Draws};

    ghost then = { Draws };
}

/// Load of word 0: takes the slot where the seat's ticket is served.
pub(crate) struct Watch<V> {
    value: PhantomData<V>,
}

impl<V: Turn> Play<Option<Locked<V, V::Call, V::Answer>>, View<V::Call, V::Answer, V::Setting>>
    for Watch<V> {
    ghost use Rattle.turn_lock.specs.Steps.{Watches};

    ghost then = { Watches V.legal V.stands V.setting };
}

/// Load of word 0: finds whether the seat's ticket is served, and leaves the slot where it is.
pub(crate) struct Await;

impl<V, C, A, T> Play<Option<Locked<V, C, A>>, View<C, A, T>> for Await {
    ghost use Rattle.turn_lock.specs.Steps.{Awaits};

    ghost then = { Awaits };
}

/// Fetch and add of word 0: gives the slot back, enters the call, and serves the next ticket.
pub(crate) struct Advance;

impl<V, C, A, T> Play<Option<Locked<V, C, A>>, View<C, A, T>> for Advance {
    ghost use Rattle.turn_lock.specs.Steps.{Advances};

    ghost then = { Advances };
}

/// Splits a seat: the new one is Fresh.
pub(crate) struct Halve;

impl<C, A, T> Split<View<C, A, T>> for Halve {
    ghost use Rattle.turn_lock.specs.Views.{kept_half, given_half};

    ghost left = { kept_half };

    ghost right = { given_half };
}

/// Load of word 0 by a seat that was split off: it learns its number.
pub(crate) struct Learn;

impl<V, C, A, T> Play<Option<Locked<V, C, A>>, View<C, A, T>> for Learn {
    ghost use Rattle.turn_lock.specs.Steps.{Learns};

    ghost then = { Learns };
}

/// Joins a seat into another: the first is Joined, the second Spent.
pub(crate) struct Add<V> {
    value: PhantomData<V>,
}

impl<V: Turn> Join<View<V::Call, V::Answer, V::Setting>> for Add<V> {
    ghost use Rattle.turn_lock.specs.Views.{joined_view, spent_view};

    ghost both = { joined_view };

    ghost spent = { spent_view V.unset };
}

/// Load of word 0 by a seat into which another was joined: it learns what follows.
pub(crate) struct Settle<V> {
    value: PhantomData<V>,
}

impl<V: Turn> Play<Option<Locked<V, V::Call, V::Answer>>, View<V::Call, V::Answer, V::Setting>>
    for Settle<V> {
    ghost use Rattle.turn_lock.specs.Steps.{Settles};

    ghost then = { Settles V.legal };
}
