//! Lines of a script and of a report, by their texts.

mod modes;

use crate::{Action, Command, Lines, Outcome, Verb, Which, parse, push_line};
use chan_values::{Bytes, Item, Items, MAX_PAYLOAD, Side};
use std::alloc::Global;
use std::test::Fail;

#[test]
fn lines_out_of_the_grammar_say_nothing(rt: HostRuntime) -> Result<(), Fail> {
    let lines = [
        "",
        " ",
        "put",
        "put P",
        "put P 1",
        "put  P 1 61",
        "put Q 1 61",
        "put P 1 61 ",
        " put P 1 61",
        "put\tP 1 61",
        "put P 1 61\r",
        "put P 01 61",
        "put P +1 61",
        "put P 4294967296 61",
        "put P 1 6",
        "put P 1 6A",
        "put P 1 6g",
        "put P 1 ",
        "put P 1 --",
        "put P 1 61 62",
        "last P",
        "last P 1",
        "last P 1 6A",
        "pull",
        "pull P ",
        "pull p",
        "Pull P",
        "hear P",
        "hear P 00",
        "hear P +1",
        "hear P 18446744073709551616",
        "hear P Last",
        "hurt P 0",
        "hurt P 0 last",
        "at",
        "at -1",
        "at 1.0",
        "tick",
        "tick P 1",
        "settle ",
        "settle P",
        "sopen",
        "post P 0",
    ];
    for line in lines {
        let read = parse(rt.alloc(), line.as_bytes())?;
        assert!(rt; read.is_none(), "{line:?}");
    }
    Ok(())
}

#[test]
fn lines_of_one_end_say_their_verb(rt: HostRuntime) -> Result<(), Fail> {
    let lines = [
        ("put A 4294967295 00ff", Side::Agent, Verb::Put),
        ("last P 12 -", Side::Plugin, Verb::Last),
        ("pull P", Side::Plugin, Verb::Pull),
        ("tick A", Side::Agent, Verb::Tick),
        ("close P", Side::Plugin, Verb::Close),
        ("hear A 0", Side::Agent, Verb::Hear),
        ("hurt P last 65535", Side::Plugin, Verb::Hurt),
        ("lost A", Side::Agent, Verb::Lost),
        ("open P", Side::Plugin, Verb::Open),
        ("pause A", Side::Agent, Verb::Pause),
        ("start P", Side::Plugin, Verb::Start),
        ("end A", Side::Agent, Verb::End),
    ];
    for (line, end, verb) in lines {
        let Some(Command::On(side, action)) = parse(rt.alloc(), line.as_bytes())? else {
            return Err(Fail::new("a line of one end was not read"));
        };
        assert_eq!(rt; side, end, "{line:?}");
        assert_eq!(rt; action.verb(), verb, "{line:?}");
    }
    Ok(())
}

#[test]
fn lines_of_both_ends_are_read(rt: HostRuntime) -> Result<(), Fail> {
    let Some(Command::At { moment }) = parse(rt.alloc(), b"at 18446744073709551615")? else {
        return Err(Fail::new("a moment was not read"));
    };
    assert_eq!(rt; moment, 18446744073709551615);
    let Some(Command::Settle) = parse(rt.alloc(), b"settle")? else {
        return Err(Fail::new("a settle was not read"));
    };
    Ok(())
}

#[test]
fn a_put_has_its_type_and_its_bytes(rt: HostRuntime) -> Result<(), Fail> {
    let cases = [
        ("put P 1 616263", Side::Plugin, 1, b"abc".as_slice()),
        ("put A 12 -", Side::Agent, 12, b"".as_slice()),
        ("put A 0 00ff", Side::Agent, 0, b"\x00\xff".as_slice()),
    ];
    for (line, end, ptype, payload) in cases {
        let Some(Command::On(side, Action::Put { item })) = parse(rt.alloc(), line.as_bytes())?
        else {
            return Err(Fail::new("a put was not read"));
        };
        assert_eq!(rt; side, end, "{line:?}");
        assert_eq!(rt; item.ptype, ptype, "{line:?}");
        assert_eq!(rt; item.payload.as_slice(), payload, "{line:?}");
    }
    Ok(())
}

#[test]
fn a_payload_has_its_limit(rt: HostRuntime) -> Result<(), Fail> {
    let mut line = b"put P 1 ".to_vec(rt.alloc())?;
    for _ in 0..MAX_PAYLOAD {
        line.extend_from_slice(b"61")?;
    }
    assert!(rt;
        parse(rt.alloc(), line.as_slice())?.is_some(),
        "65,536 bytes"
    );
    line.extend_from_slice(b"61")?;
    assert!(rt;
        parse(rt.alloc(), line.as_slice())?.is_none(),
        "65,537 bytes"
    );
    Ok(())
}

#[test]
fn a_line_names_an_emission_and_a_place(rt: HostRuntime) -> Result<(), Fail> {
    let Some(Command::On(side, Action::Hurt { which, place })) = parse(
        rt.alloc(),
        b"hurt A 18446744073709551615 7",
    )?
    else {
        return Err(Fail::new("a hurt was not read"));
    };
    assert_eq!(rt; side, Side::Agent);
    assert_eq!(rt; which, Which::Number(18446744073709551615));
    assert_eq!(rt; place, 7);
    let Some(Command::On(side, Action::Hear { which })) = parse(rt.alloc(), b"hear P last")? else {
        return Err(Fail::new("a hear was not read"));
    };
    assert_eq!(rt; side, Side::Plugin);
    assert_eq!(rt; which, Which::Last);
    Ok(())
}

#[test]
fn an_empty_last_piece_is_no_line(rt: HostRuntime) -> Result<(), Fail> {
    let cases = [
        ("", 0),
        ("\n", 1),
        ("a", 1),
        ("a\n", 1),
        ("a\n\n", 2),
        ("\na", 2),
        ("a\nb\n", 2),
        ("a\r\nb", 2),
    ];
    for (input, count) in cases {
        assert_eq!(rt; Lines::new(input.as_bytes()).count(), count, "{input:?}");
    }
    let mut lines = Lines::new(b"ab\r\n\nc");
    assert_eq!(rt; lines.next(), Some(b"ab\r".as_slice()));
    assert_eq!(rt; lines.next(), Some(b"".as_slice()));
    assert_eq!(rt; lines.next(), Some(b"c".as_slice()));
    assert_eq!(rt; lines.next(), None);
    Ok(())
}

#[test]
fn a_report_has_the_words_of_each_outcome(rt: HostRuntime) -> Result<(), Fail> {
    let outcomes = [
        Outcome::Seq(0),
        Outcome::Full,
        Outcome::Closed,
        Outcome::Past,
        Outcome::Spent,
        Outcome::Idle,
        Outcome::Late,
        Outcome::Beyond,
        Outcome::PastEnd(2),
        Outcome::Acked(10),
        Outcome::UnknownAck(18446744073709551615),
        Outcome::Paused,
        Outcome::Started,
        Outcome::Ended,
        Outcome::AfterClose,
        Outcome::Absent,
        Outcome::Refused(7),
        Outcome::Passed,
        Outcome::Nothing,
        Outcome::Due(3),
        Outcome::GaveUp(3),
        Outcome::Quiet,
    ];
    let mut out = Vec::new(rt.alloc());
    for outcome in &outcomes {
        push_line(&mut out, 1, Verb::Hear, Some(Side::Agent), outcome)?;
    }
    let report = b"1 hear A seq 0\n1 hear A full\n1 hear A closed\n1 hear A past\n\
1 hear A spent\n1 hear A idle\n1 hear A late\n1 hear A beyond\n1 hear A past-end 2\n\
1 hear A acked 10\n1 hear A unknown-ack 18446744073709551615\n1 hear A paused\n1 hear A started\n\
1 hear A ended\n1 hear A after-close\n1 hear A absent\n1 hear A refused 7\n\
1 hear A passed\n1 hear A nothing\n1 hear A due 3\n1 hear A gave-up 3\n1 hear A\n";
    assert_eq!(rt; out.as_slice(), report.as_slice());
    Ok(())
}

fn bytes(alloc: Global, bytes: &[u8]) -> Result<Bytes, Fail> {
    Ok(Bytes::new(bytes.to_vec(alloc)?))
}

#[test]
fn a_report_has_encodings_and_items(rt: HostRuntime) -> Result<(), Fail> {
    let mut out = Vec::new(rt.alloc());
    let encoding = bytes(rt.alloc(), b"\x00\xa9\xff")?;
    let emit = Outcome::Emit {
        number: 2,
        encoding,
    };
    push_line(&mut out, 9, Verb::Pull, Some(Side::Plugin), &emit)?;
    let mut items = Vec::new(rt.alloc());
    items.push(Item {
        ptype: 1,
        payload: bytes(rt.alloc(), b"abc")?,
    })?;
    items.push(Item {
        ptype: 12,
        payload: bytes(rt.alloc(), b"")?,
    })?;
    let released = Outcome::Released(Items::new(items));
    push_line(&mut out, 10, Verb::Hear, Some(Side::Agent), &released)?;
    push_line(&mut out, 11, Verb::Settle, None, &Outcome::Quiet)?;
    let report = b"9 pull P emit 2 00a9ff\n10 hear A released 2 1:616263 12:-\n11 settle\n";
    assert_eq!(rt; out.as_slice(), report.as_slice());
    Ok(())
}
