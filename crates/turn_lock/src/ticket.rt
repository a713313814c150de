//! A turn: its ticket is drawn, waited for and served.
ghost use Rattle.std.specs.Prelude.{◌≡◌, []};
ghost use Rattle.turn_lock.specs.declared.view.Stage.TheVariants.{Waits};
ghost use Rattle.turn_lock.specs.Histories.{calls_of};
ghost use Rattle.turn_lock.specs.Stages.{IsIdle};
ghost use Rattle.turn_lock.specs.Views.{IsWhole, HasAll, HasOwn, at_stage, with_call};
ghost use Rattle.turn_lock.specs.Steps.{HoldsTurn, TakesTurn, HasValue, Reaches};

use crate::seat::TurnLock;
use crate::step::{Advance, Await, Draw, Watch};
use crate::value::Turn;
use crate::view::{LastCall, Locked, View};
use std::sync::Wait;
use std::thread;

/// The word with the ticket that is served.
const SERVING: usize = 0;

/// The word with the ticket that is drawn next.
const NEXT: usize = 1;

/// The slot with the value.
const VALUE: usize = 0;

/// How many numbers the part of a word has on which a thread sleeps.
const PARKED: u64 = 1 << 32;

/// A seat as the table has it.
pub(crate) type Inner<V> = atomic_table::Seat<
    Option<Locked<V, <V as Turn>::Call, <V as Turn>::Answer>>,
    View<<V as Turn>::Call, <V as Turn>::Answer, <V as Turn>::Setting>,
>;

impl<V: Turn> TurnLock<V> {
    // Waits for a turn, and takes the value. The whole history is seen then.
    pub(crate) fn begin<R: Wait>(&self, rt: &R, inner: &mut Inner<V>) -> V
        requires lock { inner.old.table_id ≡ self.now.table.shared.table_id }
        requires idle { IsIdle inner.old.me }
        ensures lock { inner.new.table_id ≡ inner.old.table_id }
        ensures turn { HasValue V.legal V.stands V.setting inner.old.me result inner.new.me }
    {
        let ticket = self.draw(rt, inner);
        self.wait(rt, inner, ticket);
        let Some(locked) = self.table.shared.exchange(inner, VALUE, None) else {
            unreachable!()
        };
        let Locked { value, last: _ } = locked;
        value
    }

    // Gives the value back after a call, enters the call, and serves the next ticket.
    pub(crate) fn end(&self, inner: &mut Inner<V>, value: V, last: LastCall<V::Call, V::Answer>)
        requires lock { inner.old.table_id ≡ self.now.table.shared.table_id }
        requires turn { HoldsTurn inner.old.me }
        requires legal { let after = with_call inner.old.me.0 last in
            V.legal after.setting (calls_of after.seen) }
        requires stands { V.stands value (calls_of (with_call inner.old.me.0 last).seen) }
        requires setting { V.setting value ≡ inner.old.me.0.setting }
        ensures lock { inner.new.table_id ≡ inner.old.table_id }
        ensures entered { inner.new.me ≡ (with_call inner.old.me.0 last, []) }
        ensures own { HasOwn inner.new.me.0 }
        ensures whole { IsWhole inner.old.me.0.share → HasAll inner.new.me.0 }
    {
        let shared = &self.table.shared;
        let locked = Locked {
            value,
            last: Some(last),
        };
        match shared.exchange(inner, VALUE, Some(locked)) {
            None => {}
            Some(_) => unreachable!(),
        }
        let served = shared.fetch_add::<Advance>(inner, SERVING, 1);
        self.wake(served);
    }

    // Draws a ticket. There are 2^64 - 1 of them: after the last it waits for good.
    pub(crate) fn draw<R: Wait>(&self, rt: &R, inner: &mut Inner<V>) -> u64
        requires lock { inner.old.table_id ≡ self.now.table.shared.table_id }
        requires idle { IsIdle inner.old.me }
        ensures lock { inner.new.table_id ≡ inner.old.table_id }
        ensures ticket { inner.new.me ≡ (at_stage inner.old.me.0 (Waits result), inner.old.me.1) }
    {
        for _ in rt.forever() {
            let shared = &self.table.shared;
            let next = shared.peek(NEXT);
            if next == u64::MAX {
                thread::yield_now();
            } else if shared.compare_exchange::<Draw>(inner, NEXT, next, next + 1) == next {
                return next;
            }
        }
        unreachable!()
    }

    // Waits until the ticket is served, and takes the slot.
    fn wait<R: Wait>(&self, rt: &R, inner: &mut Inner<V>, ticket: u64)
        requires lock { inner.old.table_id ≡ self.now.table.shared.table_id }
        requires ticket { (inner.old.me.0.stage ≡ Waits ticket) × (inner.old.me.1 ≡ []) }
        ensures lock { inner.new.table_id ≡ inner.old.table_id }
        ensures turn { TakesTurn V.legal V.stands V.setting ticket inner.old.me inner.new.me }
    {
        for _ in rt.forever() {
            let serving = self.table.shared.load::<Watch<V>>(inner, SERVING);
            if serving == ticket {
                return;
            }
            self.rest(rt, serving);
        }
        unreachable!()
    }

    // Waits until the ticket is served, and leaves the value in the slot.
    pub(crate) fn reach<R: Wait>(&self, rt: &R, inner: &mut Inner<V>, ticket: u64)
        requires lock { inner.old.table_id ≡ self.now.table.shared.table_id }
        requires ticket { inner.old.me.0.stage ≡ Waits ticket }
        ensures lock { inner.new.table_id ≡ inner.old.table_id }
        ensures turn { Reaches ticket inner.old.me inner.new.me }
    {
        for _ in rt.forever() {
            let served = self.table.shared.load::<Await>(inner, SERVING);
            if served == ticket {
                return;
            }
            self.rest(rt, served);
        }
        unreachable!()
    }

    // Sleeps while the ticket `serving` is served. Each call that ends wakes all that sleep.
    fn rest<R: Wait>(&self, rt: &R, serving: u64) {
        self.table
            .shared
            .park(rt, SERVING, (serving % PARKED) as u32);
    }

    // Wakes all that sleep once the ticket `served` is done: each looks whether it is next.
    fn wake(&self, served: u64) {
        let shared = &self.table.shared;
        // Where no other ticket is out, nobody sleeps.
        if shared.peek(NEXT) != served.wrapping_add(1) {
            shared.wake_all(SERVING);
        }
    }
}
