//! The connections that live, as the accepting worker has them.

ghost use Rattle.std.specs.Prelude.{◌≡◌, ◌≤◌, ◌<◌, ℕ, [], All, IfSome, length, vec_len, vec_capacity};
ghost use Rattle.chan_io.specs.LinksOut.{unsent};
ghost use Rattle.chan_io.specs.Faults.{Merges};
ghost use Rattle.turn_lock.specs.Seats.{IsSeatOf, SameLock, TakesIn};
ghost use Rattle.relay_accept.specs.Accepting.{IsOut, Loses, Steps};
ghost use Rattle.relay_accept.specs.Ends.{least};
ghost use Rattle.relay_accept.specs.Seats.{locks_in, locks_of};

use crate::conn_done::{ConnDone, FromConn};
use crate::conn_start::{ConnStart, Flag};
use crate::conn_work::{RunningConn, start_conn};
use crate::relay_context::RelayContext;
use crate::relay_seats::RelaySeats;
use crate::run_end::RunEnd;
use chan_io::{Clock, Entropy, LinkIn, LinkOut, Spawner};
use chan_values::NoMemory;
use relay_desk::Desk;
use session_register::Keeper;
use std::alloc::Global;
use std::snapshot::Snapshot;
use std::sync::atomic::{AtomicBool, Ordering};
use std::sync::{Arc, Wait};
use std::thread::Threads;
use turn_lock::Turn;

/// The worker of a connection that is out, beside it what it promised, and what it sets as its last
/// act.
pub(crate) type Conn<K, E, W> = (RunningConn<K, E, W>, FromConn<Desk<K, E>>, Flag);

/// The accepting worker: its seats and its spawner, and how those ended that it joined.
#[derive(Drop)]
pub(crate) struct Acceptor<D: Turn, W> {
    /// Its seats, with those of the workers that it joined.
    pub seats: RelaySeats<D>,
    /// What starts the workers.
    pub spawner: W,
    /// Of how those ended that it joined, what is told.
    pub end: RunEnd,
    /// The number of the next connection.
    pub next: u64,
}

/// Takes in what the worker of a connection ended with.
fn absorb<R, C, K: Keeper + Drop, E: Entropy + Drop, W: Spawner>(
    ctx: &RelayContext<'_, '_, R, C, Desk<K, E>>,
    acceptor: &mut Acceptor<Desk<K, E>, W>,
    done: ConnDone<Desk<K, E>, W>,
)
    requires desk { IsSeatOf ctx.now.desk.now acceptor.old.seats.desk }
    requires switches { locks_of acceptor.old.seats.switches.items ≡ locks_in ctx.now.switches.now }
    requires other_desk { IsSeatOf ctx.now.desk.now done.seats.desk }
    requires other_switches { locks_of done.seats.switches.items ≡ locks_in ctx.now.switches.now }
    ensures desk { TakesIn acceptor.old.seats.desk done.seats.desk acceptor.new.seats.desk }
    ensures switches { locks_of acceptor.new.seats.switches.items
        ≡ locks_of acceptor.old.seats.switches.items }
    ensures end { acceptor.new.end ≡ least acceptor.old.end done.end }
    ensures merges { Merges (W.faults acceptor.old.spawner) (W.faults done.spawner)
        (W.faults acceptor.new.spawner) }
    ensures counted { W.faults acceptor.old.spawner ≤ W.faults acceptor.new.spawner }
{
    let ConnDone {
        seats,
        spawner,
        end,
    } = done;
    acceptor.seats.join(ctx, seats);
    acceptor.spawner.merge(spawner);
    acceptor.end = acceptor.end.least(end);
}

/// Joins the worker of a connection.
fn join_conn<R: Threads, C, K: Keeper + Drop, E: Entropy + Drop, W: Spawner>(
    ctx: &RelayContext<'_, '_, R, C, Desk<K, E>>,
    acceptor: &mut Acceptor<Desk<K, E>, W>,
    conn: Conn<K, E, W>,
)
    requires desk { IsSeatOf ctx.now.desk.now acceptor.old.seats.desk }
    requires switches { locks_of acceptor.old.seats.switches.items ≡ locks_in ctx.now.switches.now }
    requires out { IsOut W.faults ctx.now.desk.now (locks_in ctx.now.switches.now) conn }
    ensures desk { SameLock acceptor.old.seats.desk acceptor.new.seats.desk }
    ensures switches { locks_of acceptor.new.seats.switches.items
        ≡ locks_of acceptor.old.seats.switches.items }
    ensures loses { Loses W.faults conn.1 acceptor.old acceptor.new }
{
    let (call, _promise, _flag) = conn;
    let done = call.join(ctx.rt);
    absorb(ctx, acceptor, done);
}

/// Ends the accepting worker.
pub(crate) fn end_by<D: Turn, W>(acceptor: &mut Acceptor<D, W>, end: RunEnd) -> bool
    ensures { acceptor.new ≡ record acceptor.old { end = least acceptor.old.end end } }
{
    acceptor.end = acceptor.end.least(end);
    true
}

/// Starts the worker of a connection, and answers whether the accepting worker ends.
pub(crate) fn start<
    's,
    'e,
    R: Threads + Wait + Sync + 's,
    C: Clock + Sync + 's,
    K: Keeper + Send + Drop + 's,
    E: Entropy + Send + Drop + 's,
    N: LinkIn + Send + Drop + 's,
    U: LinkOut + Send + Drop + 's,
    W: Spawner + Send + 's,
>(
    ctx: &RelayContext<'s, 'e, R, C, Desk<K, E>>,
    acceptor: &mut Acceptor<Desk<K, E>, W>,
    conns: &mut Vec<Conn<K, E, W>>,
    input: N,
    mut output: U,
) -> bool
    requires unsent { IfSome (U.departures output) (λ d. d ≡ unsent) }
    requires room { vec_len conns.old < vec_capacity conns.old }
    requires desk { IsSeatOf ctx.now.desk.now acceptor.old.seats.desk }
    requires switches { locks_of acceptor.old.seats.switches.items ≡ locks_in ctx.now.switches.now }
    requires out { All (IsOut W.faults ctx.now.desk.now (locks_in ctx.now.switches.now))
        conns.old.items }
    ensures { (port : ℕ) → Steps W.faults ctx.now.desk.now (locks_in ctx.now.switches.now) port port
        conns.old.items conns.new.items acceptor.old acceptor.new }
{
    let Ok((flag, theirs)) = two_flags(ctx.alloc) else {
        output.shut();
        return end_by(acceptor, RunEnd::NoMemory);
    };
    let Ok(seats) = acceptor.seats.split(ctx) else {
        output.shut();
        return end_by(acceptor, RunEnd::NoMemory);
    };
    let kept = FromConn {
        seats: Snapshot::of(&seats),
    };
    let start = ConnStart {
        ctx: ctx.again(),
        flag: theirs,
        conn: acceptor.next,
        input,
        output,
        seats,
        spawner: acceptor.spawner.twin(),
    };
    acceptor.next = acceptor.next.saturating_add(1);
    match start_conn(start, &mut acceptor.spawner) {
        Ok(call) => {
            conns.push_reserved((call, kept, flag));
            false
        }
        Err(done) => {
            absorb(ctx, acceptor, done);
            end_by(acceptor, RunEnd::NoThread)
        }
    }
}

/// The two ends of a flag that is not set.
fn two_flags(alloc: Global) -> Result<(Flag, Flag), NoMemory> {
    let flag = Arc::new(alloc, AtomicBool::new(false))?;
    let theirs = Arc::try_clone(&flag)?;
    Ok((flag, theirs))
}

/// The place of a worker that has ended, if there is one.
fn first_ended<K: Keeper + Drop, E: Entropy + Drop, W: Spawner>(
    conns: &[Conn<K, E, W>],
) -> Option<usize>
    ensures { IfSome result (λ place. place < length conns.now) }
{
    for place in 0..conns.len() {
        if conns[place].2.load(Ordering::SeqCst) {
            return Some(place);
        }
    }
    None
}

/// Joins the workers that have ended.
pub(crate) fn join_ended<R: Threads + Wait, C, K: Keeper + Drop, E: Entropy + Drop, W: Spawner>(
    ctx: &RelayContext<'_, '_, R, C, Desk<K, E>>,
    acceptor: &mut Acceptor<Desk<K, E>, W>,
    conns: &mut Vec<Conn<K, E, W>>,
)
    requires desk { IsSeatOf ctx.now.desk.now acceptor.old.seats.desk }
    requires switches { locks_of acceptor.old.seats.switches.items ≡ locks_in ctx.now.switches.now }
    requires out { All (IsOut W.faults ctx.now.desk.now (locks_in ctx.now.switches.now))
        conns.old.items }
    ensures { (port : ℕ) → Steps W.faults ctx.now.desk.now (locks_in ctx.now.switches.now) port port
        conns.old.items conns.new.items acceptor.old acceptor.new }
{
    for _ in ctx.rt.forever() {
        match first_ended(conns.as_slice()) {
            Some(place) => {
                let conn = conns.remove(place);
                join_conn(ctx, acceptor, conn);
            }
            None => return,
        }
    }
    unreachable!()
}

/// Joins all workers.
pub(crate) fn join_all<R: Threads + Wait, C, K: Keeper + Drop, E: Entropy + Drop, W: Spawner>(
    ctx: &RelayContext<'_, '_, R, C, Desk<K, E>>,
    acceptor: &mut Acceptor<Desk<K, E>, W>,
    mut conns: Vec<Conn<K, E, W>>,
)
    requires desk { IsSeatOf ctx.now.desk.now acceptor.old.seats.desk }
    requires switches { locks_of acceptor.old.seats.switches.items ≡ locks_in ctx.now.switches.now }
    requires out { All (IsOut W.faults ctx.now.desk.now (locks_in ctx.now.switches.now)) conns.items }
    ensures { (port : ℕ) → Steps W.faults ctx.now.desk.now (locks_in ctx.now.switches.now) port port
        conns.items [] acceptor.old acceptor.new }
{
    for _ in ctx.rt.forever() {
        match conns.pop() {
            Some(conn) => join_conn(ctx, acceptor, conn),
            None => return,
        }
    }
    unreachable!()
}
