use crate::{
    Bytes, Dialer, Entropy, FaultyDialer, FaultyEntropy, FaultyLinkIn, FaultyLinkOut, Got, IoFault,
    LinkIn, LinkOut, SteadyDialer, SteadyEntropy, SteadyLinkIn, SteadyLinkOut, Text,
};
use std::test::Fail;

/// What a receive was answered, in a letter.
fn letter(answer: Result<Got, IoFault>) -> char {
    match answer {
        Ok(Got::Binary(_)) => 'b',
        Ok(Got::Text(_)) => 't',
        Ok(Got::Gone) => 'g',
        Err(IoFault::Failed) => 'f',
        Err(IoFault::NoMemory) => 'm',
    }
}

#[test]
fn a_link_gives_its_messages_and_then_gone(rt: HostRuntime) -> Result<(), Fail> {
    let alloc = rt.alloc();
    let text = Got::Text(Bytes::new(vec![in alloc; 97]?));
    let binary = Got::Binary(Bytes::new(vec![in alloc; 1]?));
    let mut link = FaultyLinkIn::new(alloc, vec![in alloc; text, binary]?, vec![in alloc; 1]?);
    for expected in ['t', 'f', 'b', 'g', 'g'] {
        assert_eq!(rt; letter(link.receive()), expected, "the fake's list");
    }
    let mut steady = SteadyLinkIn::new(alloc, Vec::new(alloc));
    assert_eq!(rt; letter(steady.receive()), 'g', "nothing comes");
    Ok(())
}

#[test]
fn a_link_keeps_what_was_sent(rt: HostRuntime) -> Result<(), Fail> {
    let alloc = rt.alloc();
    let mut link = FaultyLinkOut::new(alloc, vec![in alloc; 1]?);
    assert!(rt; link.send(b"a") == Ok(()), "the first send goes out");
    assert!(rt; link.send(b"b") == Err(IoFault::Failed), "the second fails");
    assert!(rt; link.send_text(b"c") == Ok(()), "the third goes on");
    link.shut();
    assert_eq!(rt; link.sent().len(), 2, "two messages");
    assert_eq!(rt; link.shuts(), 1, "one shut");
    Ok(())
}

#[test]
fn a_steady_link_sends_all(rt: HostRuntime) -> Result<(), Fail> {
    let mut link = SteadyLinkOut::new(rt.alloc());
    assert!(rt; link.send(b"a") == Ok(()), "a message");
    assert!(rt; link.send_text(b"b") == Ok(()), "a text");
    link.shut();
    assert_eq!(rt; link.sent().len(), 2, "two messages");
    assert_eq!(rt; link.shuts(), 1, "one shut");
    Ok(())
}

#[test]
fn a_dialer_gives_its_replies(rt: HostRuntime) -> Result<(), Fail> {
    let alloc = rt.alloc();
    let address = Text::new(String::new(alloc));
    let reply = Bytes::new(vec![in alloc; 97]?);
    let mut dialer = FaultyDialer::new(alloc, vec![in alloc; reply]?, vec![in alloc; 0]?);
    let first = dialer.dial(&address, b"x");
    assert!(rt;
        matches!(first, Err(IoFault::Failed)),
        "the first dial fails"
    );
    let second = dialer.dial(&address, b"y");
    assert!(rt;
        matches!(&second, Ok(reply) if reply.as_slice() == b"a".as_slice()),
        "the second has the reply"
    );
    assert_eq!(rt; dialer.dials().len(), 2, "both are told");
    Ok(())
}

#[test]
fn a_steady_dialer_gives_one_reply(rt: HostRuntime) -> Result<(), Fail> {
    let alloc = rt.alloc();
    let address = Text::new(String::new(alloc));
    let mut dialer = SteadyDialer::new(alloc, Bytes::new(vec![in alloc; 97]?));
    for _ in 0..2 {
        let reply = dialer.dial(&address, b"x");
        assert!(rt;
            matches!(&reply, Ok(reply) if reply.as_slice() == b"a".as_slice()),
            "the same reply"
        );
    }
    assert_eq!(rt; dialer.dials().len(), 2, "both are told");
    Ok(())
}

#[test]
fn draws_fail_where_they_are_told_to(rt: HostRuntime) -> Result<(), Fail> {
    let alloc = rt.alloc();
    let mut draws = FaultyEntropy::new(vec![in alloc; [7; 16]]?, vec![in alloc; 0]?);
    assert!(rt; draws.draw().is_err(), "the first draw fails");
    assert!(rt; draws.draw() == Ok([7; 16]), "the second is given");
    assert!(rt; draws.draw().is_err(), "none is left");
    assert_eq!(rt; draws.faults(), 2, "two failed");
    let mut steady = SteadyEntropy::new([7; 16]);
    assert!(rt; steady.draw() == Ok([7; 16]), "the one draw");
    Ok(())
}
