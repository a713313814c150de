//! What no clause says: that memory is found, so that each event gets its actions.

use crate::{Action, Event, MAX_FORWARDED, Relay};
use agent_message::{Name, decode};
use chan_values::{Bytes, Side};
use json_bodies::ChannelClosed;
use session_register::SessionName;
use std::alloc::Global;
use std::fmt::Write;
use std::test::Fail;

/// An event of the session that a test speaks of.
#[derive(Clone, Copy, Debug)]
enum Cue {
    Opened(u64, Side),
    Binary(u64, usize),
    Gone(u64),
    End,
}

fn name(text: &[u8]) -> Result<SessionName, Fail> {
    Ok(SessionName::new(text).ok_or("no name")?)
}

fn event(alloc: Global, session: SessionName, cue: Cue) -> Result<Event, Fail> {
    Ok(match cue {
        Cue::Opened(conn, role) => Event::Opened {
            conn,
            session,
            role,
            reply: Bytes::new(Vec::from_slice(alloc, b"hi")?),
        },
        Cue::Binary(conn, len) => Event::Binary {
            conn,
            bytes: Bytes::new(vec![in alloc; 97; len]?),
        },
        Cue::Gone(conn) => Event::Gone { conn },
        Cue::End => Event::EndSession { session },
    })
}

/// What a message is, by its name; other bytes by how many there are.
fn kind(alloc: Global, bytes: &[u8]) -> Result<String, Fail> {
    let Ok(message) = decode(alloc, bytes) else {
        let count = bytes.len();
        return Ok(format!(in alloc; "{count} bytes")?);
    };
    let word = if message.name == Name::pause_publication() {
        "pause"
    } else if message.name == Name::start_publication() {
        "start"
    } else if message.name == Name::channel_closed() {
        "closing"
    } else {
        "message"
    };
    Ok(String::from_str(alloc, word)?)
}

fn shown(alloc: Global, actions: &[Action]) -> Result<String, Fail> {
    let mut text = String::new(alloc);
    for action in actions {
        match action {
            Action::Text(conn, reply) => {
                let count = reply.len();
                write!(text, "text {conn} {count} bytes; ")?;
            }
            Action::Send(conn, bytes) => {
                let kind = kind(alloc, bytes.as_slice())?;
                write!(text, "send {conn} {kind}; ")?;
            }
            Action::Drop(conn) => write!(text, "drop {conn}; ")?,
        }
    }
    Ok(text)
}

#[test]
fn whole_messages_go_to_the_other_role(rt: HostRuntime) -> Result<(), Fail> {
    let alloc = rt.alloc();
    let session = name(b"s-1")?;
    let mut relay = Relay::new(alloc);
    let steps = [
        (
            Cue::Opened(1, Side::Agent),
            "text 1 2 bytes; send 1 pause; ",
        ),
        (
            Cue::Opened(2, Side::Plugin),
            "text 2 2 bytes; send 1 start; ",
        ),
        (Cue::Binary(2, 1), "send 1 1 bytes; "),
        (
            Cue::Opened(3, Side::Plugin),
            "text 3 2 bytes; drop 2; send 1 start; ",
        ),
        (Cue::Gone(2), ""),
        (Cue::Gone(3), "send 1 pause; "),
        (Cue::Binary(1, 1), ""),
        (Cue::End, "send 1 closing; drop 1; "),
        (
            Cue::Opened(4, Side::Agent),
            "text 4 2 bytes; send 4 closing; drop 4; ",
        ),
        (Cue::End, ""),
    ];
    for (cue, wanted) in steps {
        let told = relay.step(event(alloc, session, cue)?, [0; 16], 1)?;
        let text = shown(alloc, told.as_slice())?;
        assert_eq!(rt; text.as_str(), wanted, "at {cue:?}");
    }
    Ok(())
}

#[test]
fn the_end_of_a_session_dismisses_both(rt: HostRuntime) -> Result<(), Fail> {
    let alloc = rt.alloc();
    let session = name(b"s-1")?;
    let mut relay = Relay::new(alloc);
    let steps = [
        (
            Cue::Opened(1, Side::Plugin),
            "text 1 2 bytes; send 1 pause; ",
        ),
        (
            Cue::Opened(2, Side::Agent),
            "text 2 2 bytes; send 1 start; ",
        ),
        (Cue::Binary(2, MAX_FORWARDED), "send 1 65656 bytes; "),
        (Cue::Binary(2, 65_657), ""),
        (Cue::End, "send 1 closing; drop 1; send 2 closing; drop 2; "),
        (Cue::Gone(1), ""),
    ];
    for (cue, wanted) in steps {
        let told = relay.step(event(alloc, session, cue)?, [0; 16], 1)?;
        let text = shown(alloc, told.as_slice())?;
        assert_eq!(rt; text.as_str(), wanted, "at {cue:?}");
    }
    Ok(())
}

#[test]
fn a_closing_names_its_session(rt: HostRuntime) -> Result<(), Fail> {
    let alloc = rt.alloc();
    let session = name(b"s-1")?;
    let mut relay = Relay::new(alloc);
    let id = [0, 1, 2, 3, 4, 5, 6, 7, 8, 9, 10, 11, 12, 13, 14, 15];
    let opened = event(alloc, session, Cue::Opened(1, Side::Agent))?;
    let _ = relay.step(opened, id, 5)?;
    let told = relay.step(Event::EndSession { session }, id, 0)?;
    let [Action::Send(1, bytes), Action::Drop(1)] = told.as_slice() else {
        assert!(rt; false, "a closing and a drop");
        return Ok(());
    };
    let message = decode(alloc, bytes.as_slice()).ok().ok_or("no message")?;
    assert_eq!(rt; message.id, id);
    assert_eq!(rt; message.date, 1);
    let closed = ChannelClosed::read(alloc, message.payload.as_slice())
        .ok()
        .ok_or("no body")?;
    assert_eq!(rt; closed.session.as_str(), "s-1");
    assert_eq!(rt; closed.created.as_str(), "1");
    assert_eq!(rt;
        closed.message_id.as_str(),
        "00010203-0405-0607-0809-0a0b0c0d0e0f"
    );
    Ok(())
}
