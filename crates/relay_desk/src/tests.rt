//! What no clause says: that memory is found, so that each message is answered what it is due.

use crate::desk_seat::end;
use crate::{Admit, Desk, Heard, Inlet, admit};
use chan_io::{FaultyEntropy, FaultyLinkIn, Got, StillClock};
use chan_values::{Bytes, Side};
use relay_switch::Switch;
use session_register::{MapKeeper, Register, SessionName};
use std::alloc::Global;
use std::test::Fail;
use turn_lock::TurnLock;

fn name(text: &[u8]) -> Result<SessionName, Fail> {
    Ok(SessionName::new(text).ok_or("no name")?)
}

fn text(alloc: Global, bytes: &[u8]) -> Result<Got, Fail> {
    Ok(Got::Text(Bytes::new(Vec::from_slice(alloc, bytes)?)))
}

/// A register with the session s-1, whose first tokens have the numbers 7 and 8.
fn register(alloc: Global) -> Result<Register<MapKeeper>, Fail> {
    let mut register = Register::new(MapKeeper::new(alloc));
    let created = register.create(alloc, &name(b"s-1")?, 7, 8);
    if created.is_err() {
        return Err(Fail::from("no session"));
    }
    Ok(register)
}

/// So many draws.
fn draws(alloc: Global, count: usize) -> Result<FaultyEntropy, Fail> {
    Ok(FaultyEntropy::new(vec![in alloc; [1; 16]; count]?, Vec::new(alloc)))
}

/// What became of a connection.
fn word(admit: &Admit) -> &'static str {
    match admit {
        Admit::Accepted { reply, .. } => {
            // docs/SESSION.md: the token after the first has count 2 and the drawn number.
            let expected = b"{\"Accepted\":true,\"Ended\":false,\
                \"ResumeToken\":\"00000000000000020101010101010101\"}";
            if reply.as_slice() == expected.as_slice() {
                "accepted"
            } else {
                "another reply"
            }
        }
        Admit::Refused(true) => "ended",
        Admit::Refused(false) => "refused",
        Admit::Store => "store",
        Admit::Entropy => "entropy",
        Admit::NoMemory => "no memory",
    }
}

const OPENING: &[u8] = b"{\"ClientId\":\"c\",\"MessageSchemaVersion\":\"1.0\",\"RequestId\":\"r\",\
    \"TokenValue\":\"s-1.plugin.00000000000000010000000000000007\"}";

const WRONG: &[u8] = b"{\"ClientId\":\"c\",\"MessageSchemaVersion\":\"1.0\",\"RequestId\":\"r\",\
    \"TokenValue\":\"s-1.plugin.00000000000000010000000000000009\"}";

const FOREIGN: &[u8] = b"{\"ClientId\":\"c\",\"MessageSchemaVersion\":\"1.0\",\"RequestId\":\"r\",\
    \"TokenValue\":\"s-2.plugin.00000000000000010000000000000007\"}";

#[test]
fn an_opening_with_a_token_of_the_register_is_let_in(rt: HostRuntime) -> Result<(), Fail> {
    let alloc = rt.alloc();
    let value = Desk::new(alloc, register(alloc)?, draws(alloc, 3)?);
    let (desk, mut seat) = TurnLock::new(alloc, value)?;
    let names = [name(b"s-1")?];
    let cases = [
        (Got::Gone, "refused"),
        (Got::Binary(Bytes::new(Vec::new(alloc))), "refused"),
        (text(alloc, b"hello")?, "refused"),
        (text(alloc, FOREIGN)?, "refused"),
        (text(alloc, WRONG)?, "refused"),
        (text(alloc, OPENING)?, "accepted"),
    ];
    for (first, expected) in cases {
        let admitted = admit(&rt, alloc, &desk, &mut seat, &first, &names);
        assert_eq!(rt; word(&admitted), expected);
    }
    assert!(rt; end(&rt, &desk, &mut seat, names[0]).is_ok());
    let first = text(alloc, OPENING)?;
    let late = admit(&rt, alloc, &desk, &mut seat, &first, &names);
    assert_eq!(rt; word(&late), "ended");
    // There are no draws left.
    let none = admit(&rt, alloc, &desk, &mut seat, &first, &names);
    assert_eq!(rt; word(&none), "entropy");
    Ok(())
}

#[test]
fn an_inlet_steps_what_comes(rt: HostRuntime) -> Result<(), Fail> {
    let alloc = rt.alloc();
    let value = Desk::new(alloc, register(alloc)?, draws(alloc, 5)?);
    let (desk, mut desk_seat) = TurnLock::new(alloc, value)?;
    let (switch, seat) = TurnLock::new(alloc, Switch::new(alloc))?;
    let mut coming = Vec::new(alloc);
    coming.push(Got::Binary(Bytes::new(Vec::new(alloc))))?;
    coming.push(text(alloc, b"hello")?)?;
    coming.push(text(alloc, b"{\"MessageType\":\"end_session\"}")?)?;
    let mut inlet = Inlet {
        conn: 1,
        session: name(b"s-1")?,
        role: Side::Agent,
        input: FaultyLinkIn::new(alloc, coming, Vec::new(alloc)),
        seat,
        over: false,
    };
    let reply = Bytes::new(Vec::new(alloc));
    let opened = inlet.open(&rt, &switch, &StillClock, &desk, &mut desk_seat, reply);
    assert_eq!(rt; opened, Heard::Opened);
    for expected in [Heard::Binary, Heard::Passed, Heard::Ended, Heard::Gone] {
        if inlet.over {
            return Err(Fail::from("over too early"));
        }
        let heard = inlet.turn(&rt, &switch, &StillClock, &desk, &mut desk_seat);
        assert_eq!(rt; heard, expected);
    }
    assert!(rt; inlet.over, "the last turn");
    Ok(())
}
