//! The lines and the report of scripts with streams and with the relay.

use crate::{
    Command, Outcome, RelayAction, RelayCommand, RelayOutcome, StreamAction, StreamCommand,
    StreamOutcome, Verb, Which, parse, parse_relay, parse_stream, push_line,
};
use chan_values::{Bytes, Side};
use std::test::Fail;

#[test]
fn a_line_is_of_the_grammars_that_have_its_verb(rt: HostRuntime) -> Result<(), Fail> {
    // The line; whether it is one of a plain script, of one with streams, of one with the relay.
    let lines = [
        ("at 7", true, true, true),
        ("put P 2 61", true, true, true),
        ("put P 1 61", true, false, true),
        ("last A 1 -", true, false, true),
        ("last A 0 -", true, true, true),
        ("pull P", true, true, true),
        ("tick A", true, true, true),
        ("close P", true, true, true),
        ("hear A last", true, true, false),
        ("hurt A 0 0", true, true, false),
        ("lost P", true, true, false),
        ("open P", true, true, false),
        ("pause P", true, true, false),
        ("start P", true, true, false),
        ("end P", true, true, false),
        ("settle", true, true, false),
        ("sopen", false, true, false),
        ("swrite P 3 61", false, true, false),
        ("sclose P 3", false, true, false),
        ("spush P 1", false, true, false),
        ("stake P 3 1", false, true, false),
        ("dial P", false, false, true),
        ("gone P", false, false, true),
        ("post P 0", false, false, true),
        ("take P last", false, false, true),
        ("finish", false, false, true),
        ("stream P opened 3", false, false, false),
        ("stream P", false, false, false),
        ("sopen P", false, false, false),
        ("finish P", false, false, false),
        ("dial", false, false, false),
        ("gone P 0", false, false, false),
        ("post P", false, false, false),
        ("take P 00", false, false, false),
        ("", false, false, false),
    ];
    for (line, plain, streams, relay) in lines {
        let text = line.as_bytes();
        assert_eq!(rt; parse(rt.alloc(), text)?.is_some(), plain, "{line:?}");
        assert_eq!(rt;
            parse_stream(rt.alloc(), text)?.is_some(),
            streams,
            "{line:?}"
        );
        assert_eq!(rt; parse_relay(rt.alloc(), text)?.is_some(), relay, "{line:?}");
    }
    Ok(())
}

#[test]
fn numbers_of_streams_have_their_bounds(rt: HostRuntime) -> Result<(), Fail> {
    let lines = [
        ("swrite P 0 61", true),
        ("swrite P 4294967295 61", true),
        ("swrite P 4294967296 61", false),
        ("swrite P 3 -", false),
        ("swrite P 3 ", false),
        ("swrite P 3 6", false),
        ("swrite P 3 6A", false),
        ("swrite P 03 61", false),
        ("sclose A 4294967295", true),
        ("sclose A 4294967296", false),
        ("sclose A", false),
        ("spush P 0", false),
        ("spush P 1", true),
        ("spush P 1024", true),
        ("spush P 1025", false),
        ("spush P 01", false),
        ("stake A 3 0", false),
        ("stake A 3 1", true),
        ("stake A 3 65536", true),
        ("stake A 3 65537", false),
        ("stake A 4294967295 1", true),
        ("stake A 4294967296 1", false),
        ("stake A 3", false),
        ("stake A 3 1 ", false),
        ("stake A 3 18446744073709551617", false),
    ];
    for (line, is_line) in lines {
        let read = parse_stream(rt.alloc(), line.as_bytes())?;
        assert_eq!(rt; read.is_some(), is_line, "{line:?}");
    }
    Ok(())
}

#[test]
fn a_write_has_at_most_32768_bytes(rt: HostRuntime) -> Result<(), Fail> {
    let mut line = b"swrite A 3 ".to_vec(rt.alloc())?;
    for _ in 0..32_768 {
        line.extend_from_slice(b"61")?;
    }
    let longest = parse_stream(rt.alloc(), line.as_slice())?;
    assert!(rt; longest.is_some(), "32,768 bytes");
    line.extend_from_slice(b"61")?;
    let longer = parse_stream(rt.alloc(), line.as_slice())?;
    assert!(rt; longer.is_none(), "32,769 bytes");
    Ok(())
}

#[test]
fn a_line_of_streams_has_its_values(rt: HostRuntime) -> Result<(), Fail> {
    let Some(StreamCommand::On(side, StreamAction::Write { sid, bytes })) = parse_stream(
        rt.alloc(),
        b"swrite P 3 6869",
    )?
    else {
        return Err(Fail::new("a write was not read"));
    };
    assert_eq!(rt; (side, sid), (Side::Plugin, 3));
    assert_eq!(rt; bytes.as_slice(), b"hi".as_slice());
    let Some(StreamCommand::On(side, StreamAction::Take { sid, most })) = parse_stream(
        rt.alloc(),
        b"stake A 5 10",
    )?
    else {
        return Err(Fail::new("a take was not read"));
    };
    assert_eq!(rt; (side, sid, most), (Side::Agent, 5, 10));
    let Some(StreamCommand::On(_, StreamAction::Push { most })) = parse_stream(
        rt.alloc(),
        b"spush A 1024",
    )?
    else {
        return Err(Fail::new("a push was not read"));
    };
    assert_eq!(rt; most, 1024);
    let Some(StreamCommand::On(_, StreamAction::Close { sid })) = parse_stream(
        rt.alloc(),
        b"sclose P 7",
    )?
    else {
        return Err(Fail::new("a close was not read"));
    };
    assert_eq!(rt; sid, 7);
    let Some(StreamCommand::Open) = parse_stream(rt.alloc(), b"sopen")? else {
        return Err(Fail::new("an opening was not read"));
    };
    let Some(StreamCommand::Plain(Command::Settle)) = parse_stream(rt.alloc(), b"settle")? else {
        return Err(Fail::new("a plain line was not read"));
    };
    Ok(())
}

#[test]
fn a_line_of_the_relay_has_its_verb(rt: HostRuntime) -> Result<(), Fail> {
    let lines = [
        ("put A 1 00ff", Side::Agent, Verb::Put),
        ("last P 12 -", Side::Plugin, Verb::Last),
        ("pull P", Side::Plugin, Verb::Pull),
        ("tick A", Side::Agent, Verb::Tick),
        ("close P", Side::Plugin, Verb::Close),
        ("dial A", Side::Agent, Verb::Dial),
        ("gone P", Side::Plugin, Verb::Gone),
        ("post A last", Side::Agent, Verb::Post),
        ("take P 18446744073709551615", Side::Plugin, Verb::Take),
    ];
    for (line, end, verb) in lines {
        let Some(RelayCommand::On(side, action)) = parse_relay(rt.alloc(), line.as_bytes())? else {
            return Err(Fail::new("a line of one end was not read"));
        };
        assert_eq!(rt; side, end, "{line:?}");
        assert_eq!(rt; action.verb(), verb, "{line:?}");
    }
    Ok(())
}

#[test]
fn a_line_of_the_relay_has_its_values(rt: HostRuntime) -> Result<(), Fail> {
    let Some(RelayCommand::At { moment }) = parse_relay(rt.alloc(), b"at 9")? else {
        return Err(Fail::new("a moment was not read"));
    };
    assert_eq!(rt; moment, 9);
    let Some(RelayCommand::Finish) = parse_relay(rt.alloc(), b"finish")? else {
        return Err(Fail::new("a finish was not read"));
    };
    let Some(RelayCommand::On(_, RelayAction::Put { item })) = parse_relay(
        rt.alloc(),
        b"put P 1 6162",
    )?
    else {
        return Err(Fail::new("a put was not read"));
    };
    assert_eq!(rt; item.ptype, 1);
    assert_eq!(rt; item.payload.as_slice(), b"ab".as_slice());
    let Some(RelayCommand::On(_, RelayAction::Post { which })) = parse_relay(
        rt.alloc(),
        b"post A 4",
    )?
    else {
        return Err(Fail::new("a post was not read"));
    };
    assert_eq!(rt; which, Which::Number(4));
    let Some(RelayCommand::On(_, RelayAction::Take { which })) = parse_relay(
        rt.alloc(),
        b"take A last",
    )?
    else {
        return Err(Fail::new("a take was not read"));
    };
    assert_eq!(rt; which, Which::Last);
    Ok(())
}

#[test]
fn a_report_has_the_words_of_streams(rt: HostRuntime) -> Result<(), Fail> {
    let end = Some(Side::Agent);
    let taken = Bytes::new(b"hi".to_vec(rt.alloc())?);
    let none = Bytes::new(Vec::new(rt.alloc()));
    let lines = [
        (Verb::StreamOpen, None, StreamOutcome::Sid(4294967295)),
        (Verb::StreamOpen, None, StreamOutcome::TooMany),
        (Verb::StreamOpen, None, StreamOutcome::IdsSpent),
        (Verb::StreamWrite, end, StreamOutcome::Done),
        (Verb::StreamClose, end, StreamOutcome::Unknown),
        (Verb::StreamPush, end, StreamOutcome::Empty),
        (Verb::StreamTake, end, StreamOutcome::Taken(taken)),
        (Verb::StreamTake, end, StreamOutcome::Taken(none)),
        (Verb::StreamEvent, end, StreamOutcome::Opened(3)),
        (Verb::StreamEvent, end, StreamOutcome::Ready(3)),
        (Verb::StreamEvent, end, StreamOutcome::Ended(3)),
        (Verb::StreamEvent, end, StreamOutcome::Refused(2051)),
    ];
    let mut out = Vec::new(rt.alloc());
    for (verb, side, outcome) in lines {
        push_line(&mut out, 6, verb, side, &Outcome::Stream(outcome))?;
    }
    push_line(&mut out, 7, Verb::StreamTake, end, &Outcome::Ended)?;
    let report = b"6 sopen sid 4294967295\n6 sopen too-many\n6 sopen ids-spent\n6 swrite A done\n\
6 sclose A unknown\n6 spush A empty\n6 stake A 6869\n6 stake A -\n6 stream A opened 3\n\
6 stream A ready 3\n6 stream A ended 3\n6 stream A refused 2051\n7 stake A ended\n";
    assert_eq!(rt; out.as_slice(), report.as_slice());
    Ok(())
}

#[test]
fn a_report_has_the_words_of_the_relay(rt: HostRuntime) -> Result<(), Fail> {
    let end = Some(Side::Plugin);
    let lines = [
        (Verb::Dial, end, Outcome::Relay(RelayOutcome::Connection(0))),
        (Verb::Post, end, Outcome::Relay(RelayOutcome::Sent)),
        (Verb::Post, end, Outcome::Relay(RelayOutcome::Dropped)),
        (Verb::Post, end, Outcome::Absent),
        (Verb::Gone, end, Outcome::Quiet),
        (Verb::Take, end, Outcome::Started),
        (Verb::Finish, None, Outcome::Quiet),
    ];
    let mut out = Vec::new(rt.alloc());
    for (verb, side, outcome) in lines {
        push_line(&mut out, 2, verb, side, &outcome)?;
    }
    let report = b"2 dial P conn 0\n2 post P sent\n2 post P dropped\n2 post P absent\n2 gone P\n\
2 take P started\n2 finish\n";
    assert_eq!(rt; out.as_slice(), report.as_slice());
    Ok(())
}
