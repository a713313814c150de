//! The workers of a run taken apart, once they were joined.

ghost use Rattle.std.specs.Prelude.{◌≡◌};
ghost use Rattle.session_end.specs.Leftovers.{end_with};
ghost use Rattle.session_end.specs.Settling.{ends_after, link_after, seats_after, shelf_seats_after};

use crate::crew::Joined;
use crate::ends::Ends;
use crate::seats::{EndSeats, ShelfSeats};
use chan_io::Link;
use session_delivery::DeliverEnd;
use session_feeds::{Session, SessionFault};
use session_run::Shelf;
use turn_lock::Seat;

/// What the workers leave.
#[derive(Drop)]
pub(crate) struct Settled<D, N, U, S, W> {
    /// How they ended.
    pub ends: Ends,
    /// The link.
    pub link: Link<D, N, U>,
    /// The seats on the lock over the end.
    pub seats: EndSeats,
    /// The seats on the lock over the shelf.
    pub shelf_seats: ShelfSeats,
    /// The session.
    pub session: S,
    /// What started them.
    pub spawner: W,
}

/// Takes the workers apart.
pub(crate) fn settle<D, N, U, S: Session, W>(
    joined: Joined<D, N, U, S, W>,
    shelf_main: Seat<Shelf>,
) -> Settled<D, N, U, S, W>
    ensures ends { result.ends ≡ ends_after joined (S.agreed joined.service.session) }
    ensures link { result.link ≡ link_after joined }
    ensures seats { result.seats ≡ seats_after joined }
    ensures shelf_seats { result.shelf_seats ≡ shelf_seats_after joined shelf_main }
    ensures session { result.session ≡ joined.service.session }
    ensures spawner { result.spawner ≡ joined.spawner }
{
    let service = joined.service;
    let agreed = service.session.agreed();
    let reader = joined.reader;
    let state = reader.state;
    let writer = joined.writer;
    let resender = joined.resender;
    Settled {
        ends: Ends {
            writer: joined.written,
            reader: state.over,
            resent: resender.over,
            gave_up: joined.gave_up,
            started: joined.started,
            delivered: end_with(joined.refused, joined.ended),
            refusals: joined.refusals,
            agreed,
        },
        link: Link {
            dialer: reader.dialer,
            input: reader.input,
            output: writer.output,
        },
        seats: EndSeats {
            main: joined.main,
            reader: reader.end,
            writer: writer.end,
            resender: resender.end,
            deliverer: service.end,
        },
        shelf_seats: ShelfSeats {
            main: shelf_main,
            reader: reader.shelf,
            writer: writer.shelf,
            deliverer: service.shelf,
        },
        session: service.session,
        spawner: joined.spawner,
    }
}

/// How the deliverer ended, where this refusal behind the join counts as its own.
fn end_with(refused: Option<SessionFault>, ended: Option<DeliverEnd>) -> Option<DeliverEnd>
    ensures { result ≡ end_with refused ended }
{
    match refused {
        Some(SessionFault::NoMemory) => Some(DeliverEnd::NoMemory),
        Some(fault) => Some(DeliverEnd::Fault(fault)),
        None => ended,
    }
}
