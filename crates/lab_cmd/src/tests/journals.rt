//! The journals of scripts, and the verdicts on them.

use super::{run_bytes, run_with};
use crate::Status;
use lab_audit::JournalFault;
use session_audit::Why;
use std::alloc::Global;
use std::test::Fail;

/// The plugin's stream message 0, which line 1 put in: one byte, 61. Its SHA-256 is that of "a".
const MESSAGE: [u8; 121] = *b"\x00\x00\x00\x74input_stream_data               \
    \x00\x00\x00\x01\x00\x00\x00\x00\x00\x00\x00\x01\x00\x00\x00\x00\x00\x00\x00\x00\
    \x00\x00\x00\x00\x00\x00\x00\x01\x00\x00\x00\x00\x00\x00\x00\x01\x00\x00\x00\x00\x00\x00\x00\x00\
    \xca\x97\x81\x12\xca\x1b\xbd\xca\xfa\xc2\x31\xb3\x9a\x23\xdc\x4d\
    \xa7\x86\xef\xf8\x14\x7c\x4e\x72\xb9\x80\x77\x85\xaf\xee\x48\xbb\
    \x00\x00\x00\x01\x00\x00\x00\x01a";

/// Both ends are connected.
const OPENED: [u8; 12] = *b"\x00\x00\x00\x02P\x02\x00\x00\x00\x02A\x02";

/// The plugin gives out a message of 121 bytes, and the agent hears one.
const EMITTED: [u8; 6] = *b"\x00\x00\x00\x7bP\x00";

const HEARD: [u8; 6] = *b"\x00\x00\x00\x7bA\x01";

/// A message that is lost with its connection goes out again, and is acknowledged twice.
pub const LOST: &str = "put P 1 61\npull P\nhear A 0\npull A\nlost P\nopen P\npull P\nhear A 1\n\
    pull A\nhear P 1\nhear P 0\nlost P\nopen P\nput P 1 62\n";

/// The line of a journal in which one message went from the plugin to the agent.
const ONE_MESSAGE: &[u8] = b"yes sent P 1 A 0 released A 1 P 0\n";

/// A journal that is refused.
pub fn refused(at: u64, why: Why) -> Status {
    Status::BadJournal(JournalFault { at, why })
}

/// These pieces, one behind another.
fn joined(alloc: Global, pieces: &[&[u8]]) -> Result<Vec<u8>, Fail> {
    let mut bytes = Vec::new(alloc);
    for piece in pieces {
        bytes.extend_from_slice(piece)?;
    }
    Ok(bytes)
}

/// The journal of a script, with the words before `--journal`.
pub fn journal(alloc: Global, words: &str, script: &str) -> Result<Vec<u8>, Fail> {
    let line = format!(in alloc; "{words} --journal")?;
    let (_, sink) = run_with(alloc, line.as_str(), script)?;
    Ok(sink.taken().to_vec(alloc)?)
}

#[test]
fn a_journal_has_what_both_ends_did(rt: HostRuntime) -> Result<(), Fail> {
    let alloc = rt.alloc();
    let records = joined(alloc, &[&OPENED, &EMITTED, &MESSAGE, &HEARD, &MESSAGE])?;
    let script = "put P 1 61\npull P\nhear A 0\n";
    let (status, sink) = run_with(alloc, "--journal", script)?;
    assert!(rt; status == Status::Ok, "{status}");
    assert!(rt; sink.taken() == records.as_slice(), "four records");
    let (status, sink) = run_bytes(alloc, "--audit", &records)?;
    assert!(rt; status == Status::Ok, "{status}");
    assert!(rt; sink.taken() == ONE_MESSAGE, "the verdict");
    Ok(())
}

#[test]
fn what_cannot_be_is_told_by_its_place(rt: HostRuntime) -> Result<(), Fail> {
    let alloc = rt.alloc();
    let mut second = MESSAGE;
    // Number 1, without SYN.
    second[55] = 1;
    second[63] = 0;
    let cases = [
        (
            joined(alloc, &[&OPENED, &HEARD, &MESSAGE, &EMITTED, &MESSAGE])?,
            Status::Ok,
        ),
        (
            joined(alloc, &[&OPENED, &HEARD, &MESSAGE])?,
            refused(12, Why::Unheard),
        ),
        (
            joined(
                alloc,
                &[
                    &OPENED, &EMITTED, &MESSAGE, &EMITTED, &MESSAGE, &HEARD, &MESSAGE,
                ],
            )?,
            Status::Ok,
        ),
        (
            joined(alloc, &[&OPENED, &EMITTED, &second, &EMITTED, &MESSAGE])?,
            refused(12, Why::NotEmitted),
        ),
    ];
    for (records, due) in cases {
        let (status, sink) = run_bytes(alloc, "--audit", &records)?;
        assert!(rt; status == due, "{status} in place of {due}");
        assert!(rt;
            (due == Status::Ok) == (sink.taken() == ONE_MESSAGE),
            "{due}"
        );
    }
    let (status, sink) = run_bytes(alloc, "--audit", b"\x00\x00\x00\x02\x58\x02")?;
    assert!(rt; status == refused(0, Why::WrongEnd(b'X')), "{status}");
    assert!(rt; sink.taken().is_empty(), "nothing is written");
    Ok(())
}

#[test]
fn the_journal_of_a_script_is_accepted(rt: HostRuntime) -> Result<(), Fail> {
    let alloc = rt.alloc();
    let mut given_up = String::new(alloc);
    given_up.push_str("put P 1 61\npull P\n")?;
    for i in 0..3_000u64 {
        let moment = 201 * (i + 1);
        let lines = format!(in alloc; "at {moment}\ntick P\npull P\n")?;
        given_up.push_str(lines.as_str())?;
    }
    given_up.push_str("at 603201\ntick P\nput P 1 61\n")?;
    let cases = [
        (
            "--window 1",
            "put P 1 61\npull P\nhear A 0\npull A\nhear P 0\nput P 1 62\npull P\nhear A 1\n\
            hear A 0\npull A\npull A\n",
            b"yes sent P 2 A 0 released A 2 P 0\n".as_slice(),
        ),
        ("", LOST, ONE_MESSAGE),
        (
            "",
            given_up.as_str(),
            b"yes sent P 1 A 0 released A 0 P 0\n".as_slice(),
        ),
        (
            "",
            "put P 1 61\nlast P 10 00000002\nput P 1 62\npull P\npull P\nhear A 1\nhear A 0\n\
            put A 1 63\n",
            b"yes sent P 2 A 0 released A 2 P 0\n".as_slice(),
        ),
        (
            "",
            "put P 1 61\nput A 1 62\npause P\nstart P\nhurt A 0 0\nhear A last\nsettle\nend P\n\
            pause P\nclose A\nclose A\npull A\nhear A 0\n",
            b"yes sent P 1 A 1 released A 1 P 1\n".as_slice(),
        ),
    ];
    for (words, script, line) in cases {
        let records = journal(alloc, words, script)?;
        let words = format!(in alloc; "{words} --audit")?;
        let (status, sink) = run_bytes(alloc, words.as_str(), &records)?;
        assert!(rt; status == Status::Ok, "{script}: {status}");
        assert!(rt; sink.taken() == line, "{script}");
    }
    Ok(())
}
