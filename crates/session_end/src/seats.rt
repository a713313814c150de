//! The seats of a run on its two locks. Those of the workers are split off one from another, so
//! that their numbers rise, and joined in the opposite order.

ghost use Rattle.std.specs.Prelude.{◌≡◌};
ghost use Rattle.turn_lock.specs.Seats.{IsSeatOf};
ghost use Rattle.session_end.specs.Seats.{IsJoinOfFive, IsJoinOfFour, IsSplitInFive, IsSplitInFour};

use session_run::{Held, Shelf};
use turn_lock::{Seat, TurnLock};

/// The seats on the lock over the end.
#[derive(Drop)]
pub(crate) struct EndSeats {
    /// The one into which the others are joined.
    pub main: Seat<Held>,
    /// That of the link reader.
    pub reader: Seat<Held>,
    /// That of the link writer.
    pub writer: Seat<Held>,
    /// That of the resend worker.
    pub resender: Seat<Held>,
    /// That of the deliverer.
    pub deliverer: Seat<Held>,
}

impl EndSeats {
    /// Splits off the seats of the workers.
    pub(crate) fn split(ends: &TurnLock<Held>, mut main: Seat<Held>) -> EndSeats
        requires { IsSeatOf ends.now main }
        ensures { IsSplitInFive main result.main result.reader result.writer result.resender
            result.deliverer }
    {
        let Ok(mut reader) = ends.split(&mut main) else {
            unreachable!()
        };
        let Ok(mut writer) = ends.split(&mut reader) else {
            unreachable!()
        };
        let Ok(mut resender) = ends.split(&mut writer) else {
            unreachable!()
        };
        let Ok(deliverer) = ends.split(&mut resender) else {
            unreachable!()
        };
        EndSeats {
            main,
            reader,
            writer,
            resender,
            deliverer,
        }
    }

    /// Joins them all.
    pub(crate) fn join(self, ends: &TurnLock<Held>) -> Seat<Held>
        requires main { IsSeatOf ends.now self.main }
        requires reader { IsSeatOf ends.now self.reader }
        requires writer { IsSeatOf ends.now self.writer }
        requires resender { IsSeatOf ends.now self.resender }
        requires deliverer { IsSeatOf ends.now self.deliverer }
        ensures { IsJoinOfFive self.main self.reader self.writer self.resender self.deliverer
            result }
    {
        let EndSeats {
            mut main,
            mut reader,
            mut writer,
            mut resender,
            deliverer,
        } = self;
        ends.join(&mut resender, deliverer);
        ends.join(&mut writer, resender);
        ends.join(&mut reader, writer);
        ends.join(&mut main, reader);
        main
    }
}

/// The seats on the lock over the shelf.
#[derive(Drop)]
pub(crate) struct ShelfSeats {
    /// The one into which the others are joined.
    pub main: Seat<Shelf>,
    /// That of the link reader.
    pub reader: Seat<Shelf>,
    /// That of the link writer.
    pub writer: Seat<Shelf>,
    /// That of the deliverer.
    pub deliverer: Seat<Shelf>,
}

impl ShelfSeats {
    /// Splits off the seats of the workers.
    pub(crate) fn split(shelf: &TurnLock<Shelf>, mut main: Seat<Shelf>) -> ShelfSeats
        requires { IsSeatOf shelf.now main }
        ensures { IsSplitInFour main result.main result.reader result.writer result.deliverer }
    {
        let Ok(mut reader) = shelf.split(&mut main) else {
            unreachable!()
        };
        let Ok(mut writer) = shelf.split(&mut reader) else {
            unreachable!()
        };
        let Ok(deliverer) = shelf.split(&mut writer) else {
            unreachable!()
        };
        ShelfSeats {
            main,
            reader,
            writer,
            deliverer,
        }
    }

    /// Joins them all.
    pub(crate) fn join(self, shelf: &TurnLock<Shelf>) -> Seat<Shelf>
        requires main { IsSeatOf shelf.now self.main }
        requires reader { IsSeatOf shelf.now self.reader }
        requires writer { IsSeatOf shelf.now self.writer }
        requires deliverer { IsSeatOf shelf.now self.deliverer }
        ensures { IsJoinOfFour self.main self.reader self.writer self.deliverer result }
    {
        let ShelfSeats {
            mut main,
            mut reader,
            mut writer,
            deliverer,
        } = self;
        shelf.join(&mut writer, deliverer);
        shelf.join(&mut reader, writer);
        shelf.join(&mut main, reader);
        main
    }
}
