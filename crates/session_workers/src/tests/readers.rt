//! A link reader as a job, over a dialer and a link in memory.

ghost use Rattle.turn_lock.specs.Seats.{IsSeatOf};

use super::cases::{
    ACCEPTED, AGAIN, Case, ENDED, FIRST, GONE, Over, REFUSED, dialer_of, input_of, is_over,
    setting, text_of,
};
use super::coming::Coming;
use crate::{LinkReader, ReadState, ReaderDone, ReaderJob};
use chan_io::{FaultyDialer, FaultyLinkIn, Job, StillClock};
use chan_values::{NoMemory, Side};
use session_run::{Count, Held, OpenGate, Parcel, Shelf, shelf_seat};
use std::alloc::Global;
use std::sync::Wait;
use std::test::Fail;
use turn_lock::{Seat, TurnLock};

/// A reader that ran to its end, and what is on the shelf then.
#[derive(Drop)]
struct Seen {
    reader: LinkReader<FaultyDialer, FaultyLinkIn>,
    count: Count,
    parcels: String,
}

/// All parcels of a shelf, in letters.
fn letters<R: Wait>(
    rt: &R,
    alloc: Global,
    shelf: &TurnLock<Shelf>,
    mut seat: Seat<Shelf>,
) -> Result<String, NoMemory>
    requires { IsSeatOf shelf.now seat }
{
    let mut letters = String::new(alloc);
    for _ in 0..4u8 {
        match shelf_seat::first(rt, shelf, &mut seat) {
            Some(Parcel::Arrived(item)) => {
                for byte in item.payload.as_slice() {
                    letters.push(char::from(*byte))?;
                }
            }
            Some(Parcel::Finished) => letters.push('.')?,
            Some(Parcel::Over) => letters.push('!')?,
            None => {}
        }
    }
    Ok(letters)
}

/// Lets a reader run to its end.
fn read_all<R: Wait + Sync>(rt: &R, alloc: Global, case: &Case) -> Result<Seen, NoMemory> {
    let (ends, mut end) = TurnLock::new(alloc, Held::new(alloc, Side::Plugin, 1)?)?;
    let (shelf, mut inbox) = TurnLock::new(alloc, Shelf::new(alloc))?;
    let reader = LinkReader {
        setting: setting(alloc)?,
        dialer: dialer_of(alloc, case)?,
        input: input_of(alloc, case)?,
        end: ends.split(&mut end)?,
        shelf: shelf.split(&mut inbox)?,
        state: ReadState::new(text_of(alloc, FIRST)?),
    };
    let job = ReaderJob {
        rt,
        alloc,
        ends: &ends,
        shelf: &shelf,
        clock: &StillClock,
        gate: &OpenGate,
        reader,
    };
    let ReaderDone { reader } = job.run();
    let count = shelf_seat::count(rt, &shelf, &mut inbox);
    let parcels = letters(rt, alloc, &shelf, inbox)?;
    Ok(Seen {
        reader,
        count,
        parcels,
    })
}

/// Whether a case comes to what it says.
fn comes_true<R: Wait + Sync>(rt: &R, alloc: Global, case: &Case) -> Result<bool, NoMemory> {
    let seen = read_all(rt, alloc, case)?;
    Ok(
        is_over(&seen.reader.state.over, case.over)
            && seen.reader.dialer.dials().len() == case.dials
            && seen.count.openings == case.openings
            && seen.parcels.as_str() == case.parcels,
    )
}

#[test]
fn a_reader_dials_until_its_link_is_lost(rt: HostRuntime) -> Result<(), Fail> {
    let cases = [
        Case {
            what: "six dials in succession fail",
            replies: &[],
            dials: 6,
            openings: 0,
            ..GONE
        },
        GONE,
        Case {
            what: "five dials fail, and five more after a connection",
            replies: &[ACCEPTED, ENDED],
            missed: &[0, 1, 2, 3, 4, 6, 7, 8, 9, 10],
            over: Over::Closed,
            dials: 12,
            ..GONE
        },
        Case {
            what: "a reply refuses",
            replies: &[REFUSED],
            over: Over::Refused,
            dials: 1,
            openings: 0,
            ..GONE
        },
        Case {
            what: "a reply does not read",
            replies: &["{"],
            over: Over::Refused,
            dials: 1,
            openings: 0,
            ..GONE
        },
        Case {
            what: "the session has ended before the first connection",
            replies: &[ENDED],
            over: Over::Refused,
            dials: 1,
            openings: 0,
            ..GONE
        },
        Case {
            what: "it has ended after it",
            replies: &[ACCEPTED, ENDED],
            over: Over::Closed,
            dials: 2,
            ..GONE
        },
    ];
    for case in &cases {
        assert!(rt; comes_true(&rt, rt.alloc(), case)?, "{}", case.what);
    }
    Ok(())
}

#[test]
fn a_reader_hears_what_comes(rt: HostRuntime) -> Result<(), Fail> {
    let cases = [
        Case {
            what: "a text, a damaged and a foreign message are passed over",
            coming: &[
                Coming::Text,
                Coming::Damaged(0, b'a'),
                Coming::Foreign(0, b'b'),
                Coming::Message(0, b'c', false),
            ],
            parcels: "c",
            ..GONE
        },
        Case {
            what: "a message that finds more parcels than the window is dropped",
            coming: &[
                Coming::Message(0, b'a', false),
                Coming::Message(1, b'b', false),
                Coming::Message(2, b'c', false),
            ],
            parcels: "ab",
            ..GONE
        },
        Case {
            what: "all arrived behind the last item",
            coming: &[Coming::Message(0, b'a', true)],
            parcels: "a.",
            ..GONE
        },
        Case {
            what: "the relay closes",
            coming: &[Coming::Closing, Coming::Message(0, b'a', false)],
            over: Over::Closed,
            dials: 1,
            ..GONE
        },
        Case {
            what: "a connection is gone, and a receive of the next one fails",
            replies: &[ACCEPTED, AGAIN, AGAIN, ENDED],
            coming: &[
                Coming::Message(0, b'a', false),
                Coming::Gone,
                Coming::Message(1, b'b', false),
            ],
            failed: &[2],
            over: Over::Closed,
            dials: 4,
            openings: 3,
            parcels: "ab",
            ..GONE
        },
    ];
    for case in &cases {
        assert!(rt; comes_true(&rt, rt.alloc(), case)?, "{}", case.what);
    }
    Ok(())
}

#[test]
fn an_opening_has_the_token_of_the_last_reply(rt: HostRuntime) -> Result<(), Fail> {
    let case = Case {
        replies: &[ACCEPTED, AGAIN, ENDED],
        ..GONE
    };
    let seen = read_all(&rt, rt.alloc(), &case)?;
    let tokens = [
        FIRST,
        "00000000000000020000000000000008",
        "00000000000000030000000000000009",
    ];
    let dials = seen.reader.dialer.dials();
    assert_eq!(rt;
        dials.len(),
        3,
        "two connections, and the end of the session"
    );
    for (dial, token) in dials.iter().zip(tokens) {
        let opening = format!(in rt.alloc();
            "{{\"ClientId\":\"c\",\"ClientVersion\":\"1.2.0.0\",\"MessageSchemaVersion\":\"1.0\",\
            \"RequestId\":\"c\",\"TokenValue\":\"s-1.plugin.{token}\"}}"
        )?;
        assert!(rt;
            dial.opening.as_slice() == opening.as_bytes(),
            "with {token}"
        );
    }
    Ok(())
}
