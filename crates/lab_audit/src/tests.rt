use crate::{AuditStop, JournalFault, judge};
use agent_message::Refusal;
use chan_io::FaultySink;
use channel_core::wire::InRefusal;
use session_audit::Why;
use std::test::Fail;

/// Both ends are connected.
const OPENED: [u8; 12] = *b"\x00\x00\x00\x02P\x02\x00\x00\x00\x02A\x02";

#[test]
fn an_accepted_journal_gets_a_line(rt: HostRuntime) -> Result<(), Fail> {
    let mut sink = FaultySink::new(rt.alloc(), Vec::new(rt.alloc()));
    assert_eq!(rt; judge(rt.alloc(), 10, &OPENED, &mut sink), Ok(()));
    let line = b"yes sent P 0 A 0 released A 0 P 0\n";
    assert_eq!(rt; sink.taken(), line.as_slice());
    Ok(())
}

#[test]
fn a_refused_journal_gets_none(rt: HostRuntime) -> Result<(), Fail> {
    let mut sink = FaultySink::new(rt.alloc(), Vec::new(rt.alloc()));
    let fault = JournalFault {
        at: 6,
        why: Why::Cut(5),
    };
    let told = judge(rt.alloc(), 10, &OPENED[..11], &mut sink);
    assert_eq!(rt; told, Err(AuditStop::Fault(fault)));
    assert!(rt; sink.taken().is_empty(), "nothing is written");
    Ok(())
}

#[test]
fn a_failed_write_is_told(rt: HostRuntime) -> Result<(), Fail> {
    let mut sink = FaultySink::new(rt.alloc(), vec![in rt.alloc(); 0]?);
    let told = judge(rt.alloc(), 10, &OPENED, &mut sink);
    assert_eq!(rt; told, Err(AuditStop::Write));
    assert!(rt; sink.taken().is_empty(), "nothing is written");
    Ok(())
}

#[test]
fn a_reason_is_told_by_its_number(rt: HostRuntime) {
    let cases = [
        (Why::Size(1), 1),
        (Why::WrongEnd(b'X'), 2),
        (Why::Kind(5), 3),
        (Why::Extra(1), 4),
        (Why::Message(InRefusal::Message(Refusal::Short(1))), 5),
        (Why::Cut(1), 6),
        (Why::NotEmitted, 7),
        (Why::Unheard, 8),
    ];
    for (why, number) in cases {
        let fault = JournalFault { at: 0, why };
        assert_eq!(rt; fault.number(), number);
    }
}
