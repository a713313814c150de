//! What no clause says: that memory is found, so that each call is answered what waits.

use crate::switch_seat::{step, take};
use crate::{Outlet, Switch, SwitchAnswer, Turned, refuse};
use chan_io::{FaultyLinkOut, Got, StillClock};
use chan_values::{Bytes, Side};
use relay_core::{Action, Event};
use session_register::SessionName;
use std::alloc::Global;
use std::test::Fail;
use turn_lock::TurnLock;

fn opened(alloc: Global, conn: u64, role: Side) -> Result<Event, Fail> {
    Ok(Event::Opened {
        conn,
        session: SessionName::new(b"s-1").ok_or("no name")?,
        role,
        reply: Bytes::new(Vec::from_slice(alloc, b"hi")?),
    })
}

fn binary(alloc: Global, conn: u64) -> Result<Event, Fail> {
    Ok(Event::Binary {
        conn,
        bytes: Bytes::new(Vec::from_slice(alloc, b"hello")?),
    })
}

fn end() -> Result<Event, Fail> {
    Ok(Event::EndSession {
        session: SessionName::new(b"s-1").ok_or("no name")?,
    })
}

/// What a take was answered.
fn word(answer: &SwitchAnswer) -> &'static str {
    match answer {
        SwitchAnswer::Next(Action::Text(_, _)) => "text",
        SwitchAnswer::Next(Action::Send(_, bytes)) => {
            if bytes.as_slice() == b"hello".as_slice() {
                "hello"
            } else {
                "own"
            }
        }
        SwitchAnswer::Next(Action::Drop(_)) => "drop",
        SwitchAnswer::Nothing => "nothing",
        SwitchAnswer::Over => "over",
        SwitchAnswer::Done => "done",
        SwitchAnswer::NoMemory => "no memory",
    }
}

#[test]
fn each_connection_has_its_line(rt: HostRuntime) -> Result<(), Fail> {
    let alloc = rt.alloc();
    let (lock, mut seat) = TurnLock::new(alloc, Switch::new(alloc))?;
    let events = [
        opened(alloc, 1, Side::Plugin)?,
        opened(alloc, 2, Side::Agent)?,
        binary(alloc, 1)?,
        // It was let in before: no event.
        opened(alloc, 1, Side::Agent)?,
        end()?,
        Event::Gone { conn: 1 },
    ];
    for event in events {
        let done = step(&rt, &lock, &mut seat, &StillClock, event, [7; 16], 9);
        assert!(rt; done, "a step");
    }
    let cases = [
        (1, "text"),
        (2, "text"),
        // The pause and the start, then the closing.
        (1, "own"),
        (1, "own"),
        (2, "hello"),
        (1, "own"),
        (1, "drop"),
        (1, "over"),
        (2, "own"),
        (2, "drop"),
        (2, "over"),
        (3, "over"),
    ];
    for (conn, expected) in cases {
        let answer = take(&rt, &lock, &mut seat, conn);
        assert_eq!(rt; word(&answer), expected, "a take of {conn}");
    }
    Ok(())
}

#[test]
fn an_outlet_sends_what_waits(rt: HostRuntime) -> Result<(), Fail> {
    let alloc = rt.alloc();
    let (lock, mut seat) = TurnLock::new(alloc, Switch::new(alloc))?;
    let mine = lock.split(&mut seat)?;
    let event = opened(alloc, 1, Side::Plugin)?;
    step(&rt, &lock, &mut seat, &StillClock, event, [7; 16], 9);
    // The second send fails.
    let output = FaultyLinkOut::new(alloc, vec![in alloc; 1]?);
    let mut outlet = Outlet::new(1, output, mine);
    assert_eq!(rt; outlet.turn(&rt, &lock), Turned::Sent);
    assert_eq!(rt; outlet.turn(&rt, &lock), Turned::Failed);
    assert!(rt; outlet.over, "the last turn");
    assert_eq!(rt; outlet.output.shuts(), 1);
    assert!(rt;
        matches!(outlet.output.sent(), [Got::Text(text)] if text.as_slice() == b"hi".as_slice())
    );
    Ok(())
}

#[test]
fn a_refused_connection_gets_one_reply(rt: HostRuntime) -> Result<(), Fail> {
    let alloc = rt.alloc();
    let mut output = FaultyLinkOut::new(alloc, Vec::new(alloc));
    assert!(rt; refuse(&mut output, false).is_ok());
    // The reply of docs/SESSION.md.
    let reply = b"{\"Accepted\":false,\"Ended\":false,\"ResumeToken\":\"\"}";
    assert!(rt; matches!(output.sent(), [Got::Text(text)] if text.as_slice() == reply.as_slice()));
    assert_eq!(rt; output.shuts(), 1);
    Ok(())
}
