//! The seats of one worker on the locks of a relay.

ghost use Rattle.std.specs.Prelude.{◌≡◌, IfOk, OnErr};
ghost use Rattle.turn_lock.specs.Seats.{IsSeatOf, KeepsHalf, GetsHalf, TakesIn};
ghost use Rattle.relay_accept.specs.Seats.{locks_in, locks_of};

use crate::relay_context::RelayContext;
use chan_values::NoMemory;
use relay_switch::Switch;
use std::alloc::Global;
use turn_lock::{Seat, Turn, TurnLock};

/// A seat on each lock of a relay.
#[derive(Drop)]
pub struct RelaySeats<D: Turn> {
    /// On the lock over the desk.
    pub desk: Seat<D>,
    /// On the lock over the switch of each session, in the order of their names.
    pub switches: Vec<SessionSeat>,
}

/// A seat on the lock over the switch of a session.
#[derive(Drop)]
pub struct SessionSeat {
    /// The place of the session among their names.
    pub place: usize,
    /// The seat.
    pub seat: Seat<Switch>,
}

impl<D: Turn> RelaySeats<D> {
    /// Splits a seat off from each.
    pub fn split<R, C>(
        &mut self,
        ctx: &RelayContext<'_, '_, R, C, D>,
    ) -> Result<RelaySeats<D>, NoMemory>
        requires desk { IsSeatOf ctx.now.desk.now self.old.desk }
        requires switches { locks_of self.old.switches.items ≡ locks_in ctx.now.switches.now }
        ensures split { IfOk result (λ other. KeepsHalf self.old.desk self.new.desk) }
        ensures desk { IfOk result (λ other. GetsHalf self.old.desk other.desk) }
        ensures refused { OnErr result (self.new.desk ≡ self.old.desk) }
        ensures same { locks_of self.new.switches.items ≡ locks_of self.old.switches.items }
        ensures switches { IfOk result (λ other.
            locks_of other.switches.items ≡ locks_of self.old.switches.items) }
    {
        let switches = split_each(ctx.alloc, ctx.switches, self.switches.as_mut_slice())?;
        let Ok(desk) = ctx.desk.split(&mut self.desk) else {
            unreachable!()
        };
        Ok(RelaySeats { desk, switches })
    }

    /// Joins those of another worker into them.
    pub fn join<R, C>(&mut self, ctx: &RelayContext<'_, '_, R, C, D>, other: RelaySeats<D>)
        requires desk { IsSeatOf ctx.now.desk.now self.old.desk }
        requires switches { locks_of self.old.switches.items ≡ locks_in ctx.now.switches.now }
        requires other_desk { IsSeatOf ctx.now.desk.now other.desk }
        requires other_switches { locks_of other.switches.items ≡ locks_in ctx.now.switches.now }
        ensures desk { TakesIn self.old.desk other.desk self.new.desk }
        ensures switches { locks_of self.new.switches.items ≡ locks_of self.old.switches.items }
    {
        let RelaySeats { desk, switches } = other;
        ctx.desk.join(&mut self.desk, desk);
        join_each(ctx.switches, self.switches.as_mut_slice(), switches);
    }
}

/// Splits a seat off from the seat on each lock.
fn split_each(
    alloc: Global,
    locks: &[TurnLock<Switch>],
    seats: &mut [SessionSeat],
) -> Result<Vec<SessionSeat>, NoMemory>
    requires { locks_of seats.old ≡ locks_in locks.now }
    ensures same { locks_of seats.new ≡ locks_of seats.old }
    ensures others { IfOk result (λ others. locks_of others.items ≡ locks_of seats.old) }
{
    let mut others = Vec::new(alloc);
    for place in 0..locks.len() {
        others.push(split_one(&locks[place], &mut seats[place], place))?;
    }
    Ok(others)
}

/// Splits a seat off from this one.
fn split_one(lock: &TurnLock<Switch>, seat: &mut SessionSeat, place: usize) -> SessionSeat
    requires { IsSeatOf lock.now seat.old.seat }
    ensures kept { KeepsHalf seat.old.seat seat.new.seat }
    ensures given { GetsHalf seat.old.seat result.seat }
{
    let Ok(other) = lock.split(&mut seat.seat) else {
        unreachable!()
    };
    SessionSeat { place, seat: other }
}

/// Joins another seat on each lock into the seat on it.
fn join_each(locks: &[TurnLock<Switch>], seats: &mut [SessionSeat], mut others: Vec<SessionSeat>)
    requires seats { locks_of seats.old ≡ locks_in locks.now }
    requires others { locks_of others.items ≡ locks_in locks.now }
    ensures { locks_of seats.new ≡ locks_of seats.old }
{
    for place in (0..locks.len()).rev() {
        match others.pop() {
            Some(other) => locks[place].join(&mut seats[place].seat, other.seat),
            None => unreachable!(),
        }
    }
}
