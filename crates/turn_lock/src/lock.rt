//! The calls of a lock.
ghost use Rattle.std.specs.Prelude.{◌≡◌, [], IsOk, IfOk};
ghost use Rattle.turn_lock.specs.Histories.{calls_of};
ghost use Rattle.turn_lock.specs.Views.{IsWhole, HasAll};
ghost use Rattle.turn_lock.specs.Steps.{MayClose};
ghost use Rattle.turn_lock.specs.Seats.{setting_of, seen_of, calls_seen, HasWholeShare, IsComplete, IsSeatOf, IsFirstSeat, IsSameSeat, AddsEntry, KeepsHalf, GetsHalf, TakesIn, AreApart};
ghost use Rattle.turn_lock.specs.Receipts.{history_of, IsReceiptOf, ShowsAll};

use crate::seat::{Receipt, Seat, TurnLock};
use crate::step::{Add, Halve, Learn, Settle};
use crate::ticket::Inner;
use crate::value::Turn;
use crate::view::{LastCall, Locked};
use atomic_table::Table;
use chan_values::NoMemory;
use std::alloc::Global;
use std::snapshot::Snapshot;
use std::sync::Wait;

impl<V: Turn> TurnLock<V> {
    /// A lock over the value, with its first seat. At NoMemory the value is dropped.
    pub fn new(alloc: Global, value: V) -> Result<(TurnLock<V>, Seat<V>), NoMemory>
    where
        V: Drop,
        requires fresh { V.stands value [] }
        requires legal { V.legal (V.setting value) [] }
        ensures { IfOk result (λ made. IsFirstSeat made.0 (V.setting value) made.1) }
    {
        let about = Snapshot::of(&value);
        let mut slots = Vec::new(alloc);
        slots.push(Some(Locked { value, last: None }))?;
        let Ok((table, inner)) = Table::new(alloc, &[0, 0], slots, &about) else {
            return Err(NoMemory);
        };
        Ok((TurnLock { table }, Seat { inner }))
    }

    /// Makes a call in its turn. It may wait for calls of other seats.
    pub fn act<R: Wait>(&self, rt: &R, seat: &mut Seat<V>, call: V::Call) -> V::Answer
        requires lock { IsSeatOf self.now seat.old }
        requires call { V.callable call }
        ensures seat { IsSameSeat seat.old seat.new }
        ensures entry { AddsEntry seat.old call result seat.new }
        ensures legal { V.legal (setting_of seat.new) (calls_seen seat.new) }
        ensures whole { HasWholeShare seat.new → IsComplete seat.new }
    {
        let mut value = self.begin(rt, &mut seat.inner);
        let asked = Snapshot::of(&call);
        let answer = value.act(call);
        let last = LastCall {
            call: asked,
            answer: Snapshot::of(&answer),
        };
        self.end(&mut seat.inner, value, last);
        answer
    }

    /// Splits a seat off, for another thread. The answer is always Ok. That it takes no memory is a
    /// choice of the body, which no clause says.
    pub fn split(&self, seat: &mut Seat<V>) -> Result<Seat<V>, NoMemory>
        requires { IsSeatOf self.now seat.old }
        ensures ok { IsOk result }
        ensures kept { KeepsHalf seat.old seat.new }
        ensures given { IfOk result (λ child. GetsHalf seat.old child) }
    {
        let shared = &self.table.shared;
        let mut inner = shared.split_seat::<Halve>(&mut seat.inner);
        shared.load::<Learn>(&mut inner, 0);
        Ok(Seat { inner })
    }

    /// Joins a seat into another, which knows from then on what both knew.
    pub fn join(&self, into: &mut Seat<V>, from: Seat<V>)
        requires into { IsSeatOf self.now into.old }
        requires from { IsSeatOf self.now from }
        ensures joined { TakesIn into.old from into.new }
        ensures apart { AreApart into.old from (seen_of into.new) }
        ensures whole { HasWholeShare into.new → IsComplete into.new }
        ensures legal { HasWholeShare into.new
            → V.legal (setting_of into.new) (calls_seen into.new) }
    {
        let Seat { inner } = from;
        let shared = &self.table.shared;
        shared.join_seat::<Add<V>>(&mut into.inner, inner);
        shared.load::<Settle<V>>(&mut into.inner, 0);
    }

    /// Closes the lock, and gives the value back. It waits for calls that have a ticket.
    pub fn close<R: Wait>(self, rt: &R, seat: Seat<V>) -> (V, Receipt<V>)
        requires { IsSeatOf self seat }
        ensures value { V.stands result.0 (calls_of (history_of result.1)) }
        ensures legal { V.legal (setting_of seat) (calls_of (history_of result.1)) }
        ensures setting { V.setting result.0 ≡ setting_of seat }
        ensures receipt { IsReceiptOf seat result.1 }
        ensures whole { HasWholeShare seat → ShowsAll seat result.1 }
    {
        let Seat { mut inner } = seat;
        let ticket = self.draw(rt, &mut inner);
        self.reach(rt, &mut inner, ticket);
        let receipt = Receipt {
            seat: Snapshot::of(&inner),
        };
        (self.take_apart(inner), receipt)
    }

    /// Closes a lock of which every seat was joined into this one. It never waits.
    pub fn close_whole(self, seat: Seat<V>) -> (V, Receipt<V>)
        requires lock { IsSeatOf self seat }
        requires whole { HasWholeShare seat }
        ensures value { V.stands result.0 (calls_of (history_of result.1)) }
        ensures legal { V.legal (setting_of seat) (calls_of (history_of result.1)) }
        ensures setting { V.setting result.0 ≡ setting_of seat }
        ensures receipt { IsReceiptOf seat result.1 }
        ensures whole { ShowsAll seat result.1 }
    {
        let Seat { inner } = seat;
        let receipt = Receipt {
            seat: Snapshot::of(&inner),
        };
        (self.take_apart(inner), receipt)
    }

    // Takes the table apart, and the value out of its slot.
    fn take_apart(self, inner: Inner<V>) -> V
        requires lock { inner.table_id ≡ self.table.shared.table_id }
        requires ready { MayClose inner.me.0 }
        ensures value { V.stands result (calls_of inner.me.0.seen) }
        ensures legal { V.legal inner.me.0.setting (calls_of inner.me.0.seen) }
        ensures setting { V.setting result ≡ inner.me.0.setting }
        ensures whole { IsWhole inner.me.0.share → HasAll inner.me.0 }
    {
        let TurnLock { table } = self;
        let mut closed = table.close_with(inner);
        let Some(locked) = closed.take(0) else {
            unreachable!()
        };
        closed.free();
        let Locked { value, last: _ } = locked;
        value
    }
}
