//! A link reader, a turn at a time.

ghost use Rattle.turn_lock.specs.Seats.{IsSeatOf};

use super::cases::{Case, FIRST, GONE, Over, dialer_of, input_of, is_over, setting, text_of};
use super::clocks::Rests;
use super::coming::Coming;
use crate::{LinkReader, ReadState};
use chan_io::{Bytes, Clock, Dialer, FaultyDialer, FaultyLinkIn, IoFault, StillClock, Text};
use chan_values::{NoMemory, Side};
use session_run::{Held, Shelf, end_seat};
use std::alloc::Global;
use std::sync::Wait;
use std::test::Fail;
use turn_lock::{Seat, TurnLock};

/// A dialer that looks at the address.
#[derive(Drop)]
struct AddressDialer {
    dialer: FaultyDialer,
    /// Whether each dial was made to the relay of the cases.
    right: bool,
}

impl Dialer for AddressDialer {
    ghost use Rattle.std.specs.Prelude.{Some};

    ghost dials = { λ d. Some d.dialer.dials };

    ghost faults = { λ d. d.dialer.faults };

    fn dial(&mut self, address: &Text, opening: &[u8]) -> Result<Bytes, IoFault> {
        self.right = self.right && address.as_str() == "relay";
        self.dialer.dial(address, opening)
    }
}

/// A reader with the locks that it has seats on.
#[derive(Drop)]
struct Desk {
    ends: TurnLock<Held>,
    shelf: TurnLock<Shelf>,
    end: Seat<Held>,
    reader: LinkReader<AddressDialer, FaultyLinkIn>,
    ghost test_end: { IsSeatOf ends end },
    ghost its_end: { IsSeatOf ends reader.end },
    ghost its_shelf: { IsSeatOf shelf reader.shelf },
}

impl Desk {
    /// A reader that meets this case, before its first turn.
    fn new(alloc: Global, case: &Case) -> Result<Desk, NoMemory> {
        let (ends, mut end) = TurnLock::new(alloc, Held::new(alloc, Side::Plugin, 1)?)?;
        let (shelf, inbox) = TurnLock::new(alloc, Shelf::new(alloc))?;
        let reader = LinkReader {
            setting: setting(alloc)?,
            dialer: AddressDialer {
                dialer: dialer_of(alloc, case)?,
                right: true,
            },
            input: input_of(alloc, case)?,
            end: ends.split(&mut end)?,
            shelf: inbox,
            state: ReadState::new(text_of(alloc, FIRST)?),
        };
        Ok(Desk {
            ends,
            shelf,
            end,
            reader,
        })
    }

    /// Makes a turn where the last was not made, and tells whether there is a connection then, and
    /// how many dials may still fail.
    fn turn<R: Wait, C: Clock>(&mut self, rt: &R, alloc: Global, clock: &C) -> (bool, u64) {
        match self.reader.state.over {
            None => self.reader.turn(rt, alloc, &self.ends, &self.shelf, clock),
            Some(_) => {}
        }
        (self.reader.state.up, self.reader.state.tries)
    }

    /// Closes the end.
    fn close<R: Wait>(&mut self, rt: &R) {
        end_seat::close(rt, &self.ends, &mut self.end, &StillClock);
    }
}

#[test]
fn a_turn_makes_one_step(rt: HostRuntime) -> Result<(), Fail> {
    let case = Case {
        missed: &[0],
        coming: &[Coming::Text],
        ..GONE
    };
    let mut desk = Desk::new(rt.alloc(), &case)?;
    let turns = [(false, 4), (true, 5), (true, 5), (false, 5), (false, 4)];
    for expected in turns {
        assert_eq!(rt; desk.turn(&rt, rt.alloc(), &StillClock), expected);
    }
    desk.close(&rt);
    desk.turn(&rt, rt.alloc(), &StillClock);
    assert!(rt;
        is_over(&desk.reader.state.over, Over::Closed),
        "it looks first"
    );
    assert_eq!(rt;
        desk.reader.dialer.dialer.dials().len(),
        3,
        "and dials no more"
    );
    assert!(rt; desk.reader.dialer.right, "all to the relay");
    Ok(())
}

#[test]
fn a_reader_rests_between_two_dials(rt: HostRuntime) -> Result<(), Fail> {
    let case = Case {
        replies: &[],
        ..GONE
    };
    let mut desk = Desk::new(rt.alloc(), &case)?;
    let clock = Rests::new();
    for rested in [200, 400, 600, 800, 1000, 1000] {
        desk.turn(&rt, rt.alloc(), &clock);
        assert_eq!(rt; clock.millis(), rested, "200 ms after each but the last");
    }
    Ok(())
}
