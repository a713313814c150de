//! How the program ends.

use super::{run, run_with};
use crate::{Status, lab};
use agent_message::{CaptureCause, CaptureFault};
use chan_io::{FaultySink, FaultySource};
use chan_values::Word;
use lab_audit::JournalFault;
use session_audit::Why;
use std::test::Fail;

#[test]
fn an_empty_script_does_nothing(rt: HostRuntime) -> Result<(), Fail> {
    let (status, sink) = run(rt.alloc(), "")?;
    assert!(rt; status == Status::Ok, "{status}");
    assert!(rt; sink.taken().is_empty(), "nothing is written");
    Ok(())
}

#[test]
fn a_faulty_command_line_is_told_by_its_place(rt: HostRuntime) -> Result<(), Fail> {
    let cases = [
        ("--x", 0),
        ("1", 0),
        ("--windows 1", 0),
        ("--window", 1),
        ("--window 0", 1),
        ("--window 10001", 1),
        ("--window x", 1),
        ("--window 01", 1),
        ("--window +1", 1),
        ("--window 1 2", 2),
        ("--window 1 --window 1", 2),
        ("--gen", 1),
        ("--gen 0 1", 1),
        ("--gen 1000001 1", 1),
        ("--gen 5", 2),
        ("--gen 5 18446744073709551616", 2),
        ("--gen 5 7 9", 3),
        ("--window 1 --show", 2),
        ("--show 1", 1),
        ("--show --window 1", 1),
        ("--showing", 0),
        ("--stream", 0),
        ("--streams 1", 1),
        ("--streams --streams", 1),
        ("--streams --window 5", 1),
        ("--window 10001 --streams", 1),
        ("--window 5 --stream", 2),
        ("--window 5 --streams 1", 3),
        ("--relay 1", 1),
        ("--streams --relay", 1),
        ("--relay --window 5", 1),
        ("--window 5 --relay --streams", 3),
        ("--journals", 0),
        ("--journal 1", 1),
        ("--audit --window 5", 1),
        ("--window 10001 --audit", 1),
        ("--window 5 --journals", 2),
        ("--window 5 --audit --journal", 3),
    ];
    for (line, k) in cases {
        let (status, sink) = run_with(rt.alloc(), line, "put P 1 61\n")?;
        assert!(rt; status == Status::Usage(k), "{line}: {status}");
        assert!(rt; sink.taken().is_empty(), "nothing is written");
    }
    Ok(())
}

#[test]
fn a_script_with_a_bad_line_is_not_begun(rt: HostRuntime) -> Result<(), Fail> {
    let cases = [
        ("put P 1 61\nput Q 1 61\n", 2),
        ("pull P\r\n", 1),
        ("pull P \n", 1),
        (" pull P\n", 1),
        ("pull P\n\npull P\n", 2),
        ("\n", 1),
        ("pull  P\n", 1),
        ("put P 01 61\n", 1),
        ("put P 1 6A\n", 1),
        ("pull P\npull P\npull", 3),
    ];
    for (script, line) in cases {
        let (status, sink) = run(rt.alloc(), script)?;
        assert!(rt; status == Status::Script(line), "{script:?}: {status}");
        assert!(rt; sink.taken().is_empty(), "nothing is written");
    }
    Ok(())
}

#[test]
fn an_input_has_at_most_67_108_864_bytes(rt: HostRuntime) -> Result<(), Fail> {
    let alloc = rt.alloc();
    let content = vec![in alloc; b'\n'; 67_108_865]?;
    let mut source = FaultySource::new(content, Vec::new(alloc));
    let mut sink = FaultySink::new(alloc, Vec::new(alloc));
    let status = lab(alloc, &[], &mut source, &mut sink);
    assert!(rt; status == Status::TooLong, "{status}");
    Ok(())
}

#[test]
fn a_failed_read_is_told(rt: HostRuntime) -> Result<(), Fail> {
    let alloc = rt.alloc();
    let cases = [0u64, 1];
    for call in cases {
        let content = Vec::from_slice(alloc, b"pull P\n")?;
        let mut source = FaultySource::new(content, vec![in alloc; call; 1]?);
        let mut sink = FaultySink::new(alloc, Vec::new(alloc));
        let status = lab(alloc, &[], &mut source, &mut sink);
        assert!(rt; status == Status::ReadFault, "{status}");
        assert!(rt; sink.taken().is_empty(), "nothing is written");
    }
    Ok(())
}

#[test]
fn a_failed_write_is_told(rt: HostRuntime) -> Result<(), Fail> {
    let alloc = rt.alloc();
    let mut script = String::new(alloc);
    for _ in 0..2_000 {
        script.push_str("put P 1 61\n")?;
    }
    // The report is written in pieces of 16 KiB and a line at most, and then the rest.
    let cases = [(0u64, 0), (1, 16_384)];
    for (call, least) in cases {
        let content = Vec::from_slice(alloc, script.as_bytes())?;
        let mut source = FaultySource::new(content, Vec::new(alloc));
        let mut sink = FaultySink::new(alloc, vec![in alloc; call; 1]?);
        let status = lab(alloc, &[], &mut source, &mut sink);
        assert!(rt; status == Status::WriteFault, "{status}");
        assert!(rt; sink.taken().len() >= least, "what was written before");
        assert!(rt; sink.taken().len() < least + 32, "and no more");
    }
    Ok(())
}

#[test]
fn a_status_is_told_by_its_line(rt: HostRuntime) -> Result<(), Fail> {
    let cause = CaptureCause::Cut(4);
    let cut = Status::BadCapture(CaptureFault { at: 127, cause });
    let why = Why::Unheard;
    let unheard = Status::BadJournal(JournalFault { at: 12, why });
    let cases = [
        (Status::NoMemory, 1, "lab: status 1 NoMemory"),
        (Status::Usage(0), 2, "lab: status 2 Usage 0"),
        (Status::Script(12), 3, "lab: status 3 Script 12"),
        (Status::ReadFault, 4, "lab: status 4 ReadFault"),
        (Status::WriteFault, 5, "lab: status 5 WriteFault"),
        (Status::TooLong, 6, "lab: status 6 TooLong"),
        (cut, 16, "lab: status 16 BadCapture 127 3"),
        (unheard, 18, "lab: status 18 BadJournal 12 8"),
    ];
    for (status, number, line) in cases {
        assert!(rt; status.number() == number, "{line}");
        let text = format!(in rt.alloc(); "{status}")?;
        assert!(rt; text.as_str() == line, "{text}");
    }
    Ok(())
}

#[test]
fn a_script_that_makes_itself_reads_nothing(rt: HostRuntime) -> Result<(), Fail> {
    let alloc = rt.alloc();
    let mut words = Vec::new(alloc);
    for word in "--gen 1 3".split_whitespace() {
        words.push(Word::new(String::from_str(alloc, word)?))?;
    }
    // The first read would fail.
    let mut source = FaultySource::new(Vec::new(alloc), vec![in alloc; 0u64; 1]?);
    let mut sink = FaultySink::new(alloc, Vec::new(alloc));
    let status = lab(alloc, &words, &mut source, &mut sink);
    assert!(rt; status == Status::Ok, "{status}");
    assert!(rt;
        sink.taken() == b"gen 1 put P 1 A 0 released A 1 P 0\n".as_slice(),
        "the line"
    );
    Ok(())
}
