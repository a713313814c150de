//! A connection, from its first message to its end.

ghost use Rattle.std.specs.Prelude.{◌≡◌, ◌<◌, ◌≤◌, IfSome};
ghost use Rattle.chan_io.specs.Faults.{Rises};
ghost use Rattle.chan_io.specs.LinksOut.{unsent};
ghost use Rattle.turn_lock.specs.Seats.{IsSeatOf};
ghost use Rattle.relay_accept.specs.Conns.{Served};
ghost use Rattle.relay_accept.specs.Ends.{IsEasyEnd};
ghost use Rattle.relay_accept.specs.Seats.{locks_in, locks_of};

use crate::let_in::let_in;
use crate::relay_context::RelayContext;
use crate::relay_seats::RelaySeats;
use crate::run_end::RunEnd;
use chan_io::{Clock, Entropy, Got, IoFault, LinkIn, LinkOut, Spawner};
use chan_values::NoMemory;
use relay_desk::{Admit, Desk, admit};
use relay_switch::refuse;
use session_register::Keeper;
use std::sync::Wait;
use std::thread::Threads;

/// Judges the first message of a connection, and lets it in or refuses it.
pub(crate) fn serve<
    's,
    'e,
    R: Threads + Wait + Sync + 's,
    C: Clock + Sync + 's,
    K: Keeper + Send + Drop + 's,
    E: Entropy + Send + Drop + 's,
    N: LinkIn + Send + Drop + 's,
    U: LinkOut + Send + Drop + 's,
    W: Spawner + 's,
>(
    ctx: &RelayContext<'s, 'e, R, C, Desk<K, E>>,
    conn: u64,
    mut input: N,
    mut output: U,
    seats: &mut RelaySeats<Desk<K, E>>,
    spawner: &mut W,
) -> RunEnd
    requires unsent { IfSome (U.departures output) (λ d. d ≡ unsent) }
    requires desk { IsSeatOf ctx.now.desk.now seats.old.desk }
    requires switches { locks_of seats.old.switches.items ≡ locks_in ctx.now.switches.now }
    ensures served { Served seats.old seats.new result
        (Rises (W.faults spawner.old) (W.faults spawner.new)) }
    ensures counted { W.faults spawner.old ≤ W.faults spawner.new }
{
    let Ok(first) = first_of(&mut input) else {
        output.shut();
        return RunEnd::NoMemory;
    };
    match admit(
        ctx.rt,
        ctx.alloc,
        ctx.desk,
        &mut seats.desk,
        &first,
        ctx.names,
    ) {
        Admit::Accepted {
            session,
            role,
            reply,
        } => let_in(
            ctx,
            conn,
            session,
            role,
            reply,
            input,
            output,
            &mut seats.desk,
            seats.switches.as_mut_slice(),
            spawner,
        ),
        Admit::Refused(ended) => turn_away(&mut output, ended),
        Admit::Store => give_up(&mut output, RunEnd::Store),
        Admit::Entropy => give_up(&mut output, RunEnd::Entropy),
        Admit::NoMemory => give_up(&mut output, RunEnd::NoMemory),
    }
}

/// The first message of a connection. A receive that failed is the loss of the connection.
fn first_of<N: LinkIn>(input: &mut N) -> Result<Got, NoMemory> {
    match input.receive() {
        Ok(got) => Ok(got),
        Err(IoFault::Failed) => Ok(Got::Gone),
        Err(IoFault::NoMemory) => Err(NoMemory),
    }
}

/// Refuses a connection. A reply that could not be sent ends that connection alone.
fn turn_away<U: LinkOut>(output: &mut U, ended: bool) -> RunEnd
    ensures { IsEasyEnd result }
{
    match refuse(output, ended) {
        Err(IoFault::NoMemory) => RunEnd::NoMemory,
        _ => RunEnd::Over,
    }
}

/// Ends a connection on which nothing was sent.
fn give_up<U: LinkOut>(output: &mut U, end: RunEnd) -> RunEnd
    ensures { result ≡ end }
{
    output.shut();
    end
}
