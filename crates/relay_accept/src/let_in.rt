//! A connection that is let in, from its opening to its end.

ghost use Rattle.std.specs.Prelude.{◌≡◌, ◌<◌, ◌≤◌, IfSome, length, false, true};
ghost use Rattle.chan_io.specs.Faults.{Rises};
ghost use Rattle.chan_io.specs.LinksOut.{unsent};
ghost use Rattle.turn_lock.specs.Seats.{IsSeatOf, SameLock};
ghost use Rattle.relay_desk.specs.Openings.{is_named};
ghost use Rattle.relay_accept.specs.Conns.{EndsBy};
ghost use Rattle.relay_accept.specs.Seats.{locks_in, locks_of};

use crate::drain::drain;
use crate::relay_context::RelayContext;
use crate::relay_seats::SessionSeat;
use crate::run_end::{RunEnd, end_of_reading, end_of_sending};
use chan_io::{Clock, Entropy, LinkIn, LinkOut, Spawner};
use chan_values::{Bytes, Side};
use relay_desk::{Desk, Heard, Inlet};
use relay_run::{SendDone, SendJob, read_all};
use relay_switch::{Outlet, Switch};
use session_register::{Keeper, SessionName};
use std::sync::Wait;
use std::thread::Threads;
use turn_lock::{Seat, TurnLock};

/// Serves a connection that is let in to this session, with this reply to its opening.
pub(crate) fn let_in<
    's,
    'e,
    R: Threads + Wait + Sync + 's,
    C: Clock + Sync + 's,
    K: Keeper + Send + Drop + 's,
    E: Entropy + Send + Drop + 's,
    N: LinkIn + Send + Drop + 's,
    U: LinkOut + Send + Drop + 's,
    W: Spawner + 's,
>(
    ctx: &RelayContext<'s, 'e, R, C, Desk<K, E>>,
    conn: u64,
    session: SessionName,
    role: Side,
    reply: Bytes,
    input: N,
    output: U,
    desk_seat: &mut Seat<Desk<K, E>>,
    seats: &mut [SessionSeat],
    spawner: &mut W,
) -> RunEnd
    requires named { is_named ctx.now.names.now session ≡ true }
    requires unsent { IfSome (U.departures output) (λ d. d ≡ unsent) }
    requires desk { IsSeatOf ctx.now.desk.now desk_seat.old }
    requires switches { locks_of seats.old ≡ locks_in ctx.now.switches.now }
    ensures ends { EndsBy desk_seat.old desk_seat.new result
        (Rises (W.faults spawner.old) (W.faults spawner.new)) }
    ensures switches { locks_of seats.new ≡ locks_of seats.old }
    ensures counted { W.faults spawner.old ≤ W.faults spawner.new }
{
    let place = place_of(ctx.names, session);
    let_in_at(
        ctx,
        &ctx.switches[place],
        conn,
        session,
        role,
        reply,
        input,
        output,
        desk_seat,
        &mut seats[place].seat,
        spawner,
    )
}

/// Serves a connection that is let in to the session with this switch, with seats split off from this
/// one.
fn let_in_at<
    's,
    'e,
    R: Threads + Wait + Sync + 's,
    C: Clock + Sync + 's,
    K: Keeper + Send + Drop + 's,
    E: Entropy + Send + Drop + 's,
    N: LinkIn + Send + Drop + 's,
    U: LinkOut + Send + Drop + 's,
    W: Spawner + 's,
>(
    ctx: &RelayContext<'s, 'e, R, C, Desk<K, E>>,
    switch: &'s TurnLock<Switch>,
    conn: u64,
    session: SessionName,
    role: Side,
    reply: Bytes,
    input: N,
    output: U,
    desk_seat: &mut Seat<Desk<K, E>>,
    rest: &mut Seat<Switch>,
    spawner: &mut W,
) -> RunEnd
    requires unsent { IfSome (U.departures output) (λ d. d ≡ unsent) }
    requires desk { IsSeatOf ctx.now.desk.now desk_seat.old }
    requires rest { IsSeatOf switch.now rest.old }
    ensures ends { EndsBy desk_seat.old desk_seat.new result
        (Rises (W.faults spawner.old) (W.faults spawner.new)) }
    ensures rest { SameLock rest.old rest.new }
    ensures counted { W.faults spawner.old ≤ W.faults spawner.new }
{
    let Ok(seat) = switch.split(rest) else {
        unreachable!()
    };
    let mut inlet = Inlet {
        conn,
        session,
        role,
        input,
        seat,
        over: false,
    };
    let end = open_inlet(
        ctx, switch, reply, output, &mut inlet, desk_seat, rest, spawner,
    );
    switch.join(rest, inlet.seat);
    end
}

/// The place of a session among their names.
fn place_of(names: &[SessionName], session: SessionName) -> usize
    requires { is_named names.now session ≡ true }
    ensures { result < length names.now }
{
    for place in 0..names.len() {
        if names[place] == session {
            return place;
        }
    }
    unreachable!()
}

/// Steps the opening, and where that was done serves the connection.
fn open_inlet<
    's,
    'e,
    R: Threads + Wait + Sync + 's,
    C: Clock + Sync + 's,
    K: Keeper + Send + Drop + 's,
    E: Entropy + Send + Drop + 's,
    N: LinkIn + Send + Drop + 's,
    U: LinkOut + Send + Drop + 's,
    W: Spawner + 's,
>(
    ctx: &RelayContext<'s, 'e, R, C, Desk<K, E>>,
    switch: &'s TurnLock<Switch>,
    reply: Bytes,
    mut output: U,
    inlet: &mut Inlet<N>,
    desk_seat: &mut Seat<Desk<K, E>>,
    rest: &mut Seat<Switch>,
    spawner: &mut W,
) -> RunEnd
    requires over { inlet.old.over ≡ false }
    requires unsent { IfSome (U.departures output) (λ d. d ≡ unsent) }
    requires desk { IsSeatOf ctx.now.desk.now desk_seat.old }
    requires switch { IsSeatOf switch.now inlet.old.seat }
    requires rest { IsSeatOf switch.now rest.old }
    ensures ends { EndsBy desk_seat.old desk_seat.new result
        (Rises (W.faults spawner.old) (W.faults spawner.new)) }
    ensures inlet { SameLock inlet.old.seat inlet.new.seat }
    ensures rest { SameLock rest.old rest.new }
    ensures counted { W.faults spawner.old ≤ W.faults spawner.new }
{
    let opened = inlet.open(ctx.rt, switch, ctx.clock, ctx.desk, desk_seat, reply);
    if opened != Heard::Opened {
        output.shut();
        return end_of_reading(opened);
    }
    let Ok(seat) = switch.split(&mut inlet.seat) else {
        unreachable!()
    };
    let job = SendJob {
        rt: ctx.rt,
        switch,
        clock: ctx.clock,
        mark: ctx.mark,
        outlet: Outlet::new(inlet.conn, output, seat),
    };
    match spawner.start(ctx.rt, ctx.scope, job) {
        Ok(running) => {
            let end = read_inlet(ctx, switch, inlet, desk_seat);
            let SendDone { outlet, end: sent } = running.join(ctx.rt);
            let (conn, seat) = seat_of(outlet);
            switch.join(rest, seat);
            drain(ctx.rt, switch, rest, conn);
            end.least(end_of_sending(sent))
        }
        Err(job) => {
            let SendJob { outlet, .. } = job;
            let (conn, seat) = shut_outlet(outlet);
            let heard = inlet.leave(ctx.rt, switch, ctx.clock, ctx.desk, desk_seat);
            switch.join(rest, seat);
            drain(ctx.rt, switch, rest, conn);
            RunEnd::NoThread.least(end_of_reading(heard))
        }
    }
}

/// Reads all that comes. A refusal sets the mark, so that the writing worker ends.
fn read_inlet<'s, 'e, R: Wait, C: Clock, K: Keeper + Drop, E: Entropy + Drop, N: LinkIn>(
    ctx: &RelayContext<'s, 'e, R, C, Desk<K, E>>,
    switch: &TurnLock<Switch>,
    inlet: &mut Inlet<N>,
    desk_seat: &mut Seat<Desk<K, E>>,
) -> RunEnd
    requires over { inlet.old.over ≡ false }
    requires desk { IsSeatOf ctx.now.desk.now desk_seat.old }
    requires switch { IsSeatOf switch.now inlet.old.seat }
    ensures ends { EndsBy desk_seat.old desk_seat.new result ⊥ }
    ensures inlet { SameLock inlet.old.seat inlet.new.seat }
{
    let heard = read_all(
        ctx.rt, switch, ctx.clock, ctx.desk, desk_seat, ctx.drops, inlet,
    );
    let end = end_of_reading(heard);
    if end != RunEnd::Over {
        ctx.mark.set();
    }
    end
}

/// The connection and the seat of an outlet whose output was shut.
fn seat_of<U: LinkOut + Drop>(outlet: Outlet<U>) -> (u64, Seat<Switch>)
    ensures conn { result.0 ≡ outlet.conn }
    ensures seat { result.1 ≡ outlet.seat }
{
    let Outlet {
        conn,
        output: _,
        over: _,
        seat,
    } = outlet;
    (conn, seat)
}

/// The connection and the seat of an outlet whose output is shut here.
fn shut_outlet<U: LinkOut + Drop>(outlet: Outlet<U>) -> (u64, Seat<Switch>)
    ensures conn { result.0 ≡ outlet.conn }
    ensures seat { result.1 ≡ outlet.seat }
{
    let Outlet {
        conn,
        mut output,
        over: _,
        seat,
    } = outlet;
    output.shut();
    (conn, seat)
}
