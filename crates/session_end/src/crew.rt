//! The workers of a run, before their start and behind their join.

ghost use Rattle.std.specs.Prelude.{◌≡◌};
ghost use Rattle.session_end.specs.Crews.{crew_of};

use crate::delivering::Service;
use crate::seats::{EndSeats, ShelfSeats};
use chan_io::Link;
use chan_values::Text;
use session_crews::Refusals;
use session_delivery::DeliverEnd;
use session_feeds::SessionFault;
use session_run::{Held, Shelf};
use session_workers::{LinkReader, LinkSetting, LinkWriter, ReadState, Resender, WorkerEnd};
use turn_lock::Seat;

/// The workers of a run, and the seat that closes the end where one can't be started.
#[derive(Drop)]
pub(crate) struct Crew<D, N, U, S> {
    /// The link reader.
    pub reader: LinkReader<D, N>,
    /// The link writer.
    pub writer: LinkWriter<U>,
    /// The resend worker.
    pub resender: Resender,
    /// The session, with the seats of the deliverer.
    pub service: Service<S>,
    /// The seat into which those of the workers are joined.
    pub main: Seat<Held>,
}

impl<D, N, U, S> Crew<D, N, U, S> {
    /// The workers before their first turns, with these seats.
    pub(crate) fn new(
        setting: LinkSetting,
        token: Text,
        link: Link<D, N, U>,
        session: S,
        seats: EndSeats,
        shelf_seats: ShelfSeats,
    ) -> (Crew<D, N, U, S>, Seat<Shelf>)
        ensures crew { result.0 ≡ crew_of setting token link session seats shelf_seats }
        ensures main { result.1 ≡ shelf_seats.main }
    {
        let writer = LinkWriter {
            side: setting.side,
            output: link.output,
            end: seats.writer,
            shelf: shelf_seats.writer,
            told: 0,
            over: false,
        };
        let reader = LinkReader {
            setting,
            dialer: link.dialer,
            input: link.input,
            end: seats.reader,
            shelf: shelf_seats.reader,
            state: ReadState::new(token),
        };
        let resender = Resender {
            end: seats.resender,
            over: false,
        };
        let service = Service {
            session,
            end: seats.deliverer,
            shelf: shelf_seats.deliverer,
        };
        let crew = Crew {
            reader,
            writer,
            resender,
            service,
            main: seats.main,
        };
        (crew, shelf_seats.main)
    }
}

/// What is there once all workers were joined, and what they left was served.
#[derive(Drop)]
pub(crate) struct Joined<D, N, U, S, W> {
    /// The link writer.
    pub writer: LinkWriter<U>,
    /// How it ended; none where it was not started.
    pub written: Option<WorkerEnd>,
    /// The resend worker. It was not started where it is not over.
    pub resender: Resender,
    /// The number on which the end gave up, if it did.
    pub gave_up: Option<u64>,
    /// The link reader. It was not started where it has not ended.
    pub reader: LinkReader<D, N>,
    /// The session, with the seats of the deliverer.
    pub service: Service<S>,
    /// The refusals of memory, of feeders and of threads with which it and the workers of feeders
    /// ended.
    pub refusals: Refusals,
    /// How the deliverer ended; none where it was not started, or did nothing.
    pub ended: Option<DeliverEnd>,
    /// Whether it was started.
    pub started: bool,
    /// Which refusal the session answered behind the join, if it did.
    pub refused: Option<SessionFault>,
    /// The seat into which those of the workers are joined.
    pub main: Seat<Held>,
    /// What started the workers.
    pub spawner: W,
}
