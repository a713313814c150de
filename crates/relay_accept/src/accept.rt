//! The worker that accepts connections.

ghost use Rattle.std.specs.Prelude.{◌≡◌, ℕ, List, All, IfSome};
ghost use Rattle.turn_lock.specs.Seats.{IsSeatOf};
ghost use Rattle.session_run.specs.Adds.{AddsCalls};
ghost use Rattle.relay_desk.specs.Desks.{DeskStep};
ghost use Rattle.relay_accept.specs.Accepting.{AcceptsAll, IsOut, Steps};
ghost use Rattle.relay_accept.specs.Ends.{MayEnd};
ghost use Rattle.relay_accept.specs.Seats.{locks_in, locks_of};

use crate::accepting::{Acceptor, Conn, end_by, join_all, join_ended, start};
use crate::relay_context::RelayContext;
use crate::relay_seats::RelaySeats;
use crate::run_end::RunEnd;
use chan_io::{Clock, Entropy, IoFault, LinkIn, LinkOut, Spawner};
use chan_ports::LinkPorts;
use relay_desk::Desk;
use relay_desk::desk_seat::ended;
use session_register::{Keeper, SessionName};
use std::sync::Wait;
use std::thread::Threads;
use turn_lock::{Seat, Turn, TurnLock};

/// The most connections that live at once. A further one waits until another has ended.
pub const MAX_LIVING: usize = 512;

/// How long the accepting worker rests while no connection more may live, in milliseconds.
const REST_MILLIS: u64 = 20;

/// What the accepting worker ends with.
#[derive(Drop)]
pub struct Accepted<L, D: Turn, W> {
    /// The ports.
    pub ports: L,
    /// The seats, with those of all workers.
    pub seats: RelaySeats<D>,
    /// What started the workers.
    pub spawner: W,
    /// Of how all workers ended, what is told.
    pub end: RunEnd,
}

/// Accepts connections and starts a worker for each, until all sessions have ended and no connection
/// lives, or a worker has ended with a refusal. Then it joins them all.
pub fn accept_all<
    's,
    'e,
    R: Threads + Wait + Sync + 's,
    C: Clock + Sync + 's,
    K: Keeper + Send + Drop + 's,
    E: Entropy + Send + Drop + 's,
    N: LinkIn + Send + Drop + 's,
    U: LinkOut + Send + Drop + 's,
    L: LinkPorts<In = N, Out = U>,
    W: Spawner + Send + 's,
>(
    ctx: &RelayContext<'s, 'e, R, C, Desk<K, E>>,
    mut ports: L,
    seats: RelaySeats<Desk<K, E>>,
    spawner: W,
) -> Accepted<L, Desk<K, E>, W>
    requires desk { IsSeatOf ctx.now.desk.now seats.desk }
    requires switches { locks_of seats.switches.items ≡ locks_in ctx.now.switches.now }
    ensures { AcceptsAll seats (W.faults spawner) (L.faults ports) (L.faults result.ports)
        result.seats (W.faults result.spawner) result.end }
{
    let mut acceptor = Acceptor {
        seats,
        spawner,
        end: RunEnd::Over,
        next: 0,
    };
    let mut conns = Vec::new(ctx.alloc);
    accept_until_over(ctx, &mut ports, &mut acceptor, &mut conns);
    if acceptor.end != RunEnd::Over {
        ctx.mark.set();
    }
    join_all(ctx, &mut acceptor, conns);
    let Acceptor {
        seats,
        spawner,
        end,
        next: _,
    } = acceptor;
    Accepted {
        ports,
        seats,
        spawner,
        end,
    }
}

/// Accepts connections until all is over, or a worker has ended with a refusal.
fn accept_until_over<
    's,
    'e,
    R: Threads + Wait + Sync + 's,
    C: Clock + Sync + 's,
    K: Keeper + Send + Drop + 's,
    E: Entropy + Send + Drop + 's,
    N: LinkIn + Send + Drop + 's,
    U: LinkOut + Send + Drop + 's,
    L: LinkPorts<In = N, Out = U>,
    W: Spawner + Send + 's,
>(
    ctx: &RelayContext<'s, 'e, R, C, Desk<K, E>>,
    ports: &mut L,
    acceptor: &mut Acceptor<Desk<K, E>, W>,
    conns: &mut Vec<Conn<K, E, W>>,
)
    requires desk { IsSeatOf ctx.now.desk.now acceptor.old.seats.desk }
    requires switches { locks_of acceptor.old.seats.switches.items ≡ locks_in ctx.now.switches.now }
    requires out { All (IsOut W.faults ctx.now.desk.now (locks_in ctx.now.switches.now))
        conns.old.items }
    ensures { Steps W.faults ctx.now.desk.now (locks_in ctx.now.switches.now)
        (L.faults ports.old) (L.faults ports.new) conns.old.items conns.new.items acceptor.old
        acceptor.new }
{
    for _ in ctx.rt.forever() {
        if accept_once(ctx, ports, acceptor, conns) {
            return;
        }
    }
    unreachable!()
}

/// Accepts one connection, or looks whether all is over. Answers whether the worker ends.
fn accept_once<
    's,
    'e,
    R: Threads + Wait + Sync + 's,
    C: Clock + Sync + 's,
    K: Keeper + Send + Drop + 's,
    E: Entropy + Send + Drop + 's,
    N: LinkIn + Send + Drop + 's,
    U: LinkOut + Send + Drop + 's,
    L: LinkPorts<In = N, Out = U>,
    W: Spawner + Send + 's,
>(
    ctx: &RelayContext<'s, 'e, R, C, Desk<K, E>>,
    ports: &mut L,
    acceptor: &mut Acceptor<Desk<K, E>, W>,
    conns: &mut Vec<Conn<K, E, W>>,
) -> bool
    requires desk { IsSeatOf ctx.now.desk.now acceptor.old.seats.desk }
    requires switches { locks_of acceptor.old.seats.switches.items ≡ locks_in ctx.now.switches.now }
    requires out { All (IsOut W.faults ctx.now.desk.now (locks_in ctx.now.switches.now))
        conns.old.items }
    ensures { Steps W.faults ctx.now.desk.now (locks_in ctx.now.switches.now)
        (L.faults ports.old) (L.faults ports.new) conns.old.items conns.new.items acceptor.old
        acceptor.new }
{
    join_ended(ctx, acceptor, conns);
    if ctx.mark.is_set() || acceptor.end != RunEnd::Over {
        return end_by(acceptor, RunEnd::Stopped);
    }
    if conns.len() >= MAX_LIVING {
        ctx.clock.rest(REST_MILLIS);
        return false;
    }
    if conns.reserve(1).is_err() {
        return end_by(acceptor, RunEnd::NoMemory);
    }
    match ports.accept() {
        Ok(Some((input, output))) => start(ctx, acceptor, conns, input, output),
        Ok(None) => over_if(ctx, conns.as_slice(), acceptor),
        Err(IoFault::Failed) => end_by(acceptor, RunEnd::Port),
        Err(IoFault::NoMemory) => end_by(acceptor, RunEnd::NoMemory),
    }
}

/// Asks whether all sessions have ended, where no connection lives. Answers whether the accepting
/// worker ends.
fn over_if<R: Wait, C, K: Keeper + Drop, E: Entropy + Drop, W: Spawner>(
    ctx: &RelayContext<'_, '_, R, C, Desk<K, E>>,
    conns: &[Conn<K, E, W>],
    acceptor: &mut Acceptor<Desk<K, E>, W>,
) -> bool
    requires desk { IsSeatOf ctx.now.desk.now acceptor.old.seats.desk }
    requires out { All (IsOut W.faults ctx.now.desk.now (locks_in ctx.now.switches.now)) conns.now }
    ensures { (port : ℕ) → Steps W.faults ctx.now.desk.now (locks_in ctx.now.switches.now) port port
        conns.now conns.now acceptor.old acceptor.new }
{
    if !conns.is_empty() {
        return false;
    }
    match all_ended(ctx.rt, ctx.desk, &mut acceptor.seats.desk, ctx.names) {
        Some(end) => end_by(acceptor, end),
        None => false,
    }
}

/// Asks whether all these sessions have ended. Answers how the accepting worker ends, if it does.
fn all_ended<R: Wait, K: Keeper + Drop, E: Entropy + Drop>(
    rt: &R,
    desk: &TurnLock<Desk<K, E>>,
    seat: &mut Seat<Desk<K, E>>,
    names: &[SessionName],
) -> Option<RunEnd>
    requires { IsSeatOf desk.now seat.old }
    ensures { (calls : List DeskStep) × record {
      adds : AddsCalls seat.old calls seat.new;
      ends : IfSome result (λ end. MayEnd end calls ⊥ ⊥);
    } }
{
    for name in names {
        match ended(rt, desk, seat, *name) {
            Ok(Some(true)) => {}
            Ok(_) => return None,
            Err(IoFault::Failed) => return Some(RunEnd::Store),
            Err(IoFault::NoMemory) => return Some(RunEnd::NoMemory),
        }
    }
    Some(RunEnd::Over)
}
