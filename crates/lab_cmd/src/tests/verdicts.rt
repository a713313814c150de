//! The verdicts on journals that were changed. Each place and reason is read off the rules by hand.

use super::journals::{LOST, journal, refused};
use super::run_bytes;
use crate::Status;
use lab_script::read_number;
use session_audit::Why;
use std::alloc::Global;
use std::test::Fail;

/// Where the records of the journal of `LOST` stand, and where it ends.
const PLACES: [usize; 15] = [
    0, 6, 12, 139, 266, 567, 573, 579, 706, 833, 1_134, 1_435, 1_736, 1_742, 1_748,
];

#[test]
fn records_are_dropped(rt: HostRuntime) -> Result<(), Fail> {
    let alloc = rt.alloc();
    let records = journal(alloc, "", LOST)?;
    assert!(rt; records.len() == 1_748, "fourteen records");
    let cases = [
        ("as it is", "0 1 2 3 4 5 6 7 8 9 10 11 12 13", Status::Ok),
        (
            "no opening of the plugin",
            "1 2 3",
            refused(6, Why::NotEmitted),
        ),
        (
            "no first emission: the second is heard twice",
            "0 1 3 4 5 6 7 8 9 10 11",
            Status::Ok,
        ),
        (
            "no emission",
            "0 1 3 4 5 6 8 9 10 11",
            refused(12, Why::Unheard),
        ),
        (
            "no hearing before the acknowledgement",
            "0 1 2 4 5 6 7 8 9",
            refused(139, Why::NotEmitted),
        ),
        (
            "no first acknowledgement",
            "0 1 2 3 5 6 7 8 9 10 11 12 13",
            Status::Ok,
        ),
        (
            "no acknowledgement",
            "0 1 2 3 5 6 7 8 10",
            refused(532, Why::Unheard),
        ),
        (
            "no second opening",
            "0 1 2 3 4 5 7 8 9",
            refused(573, Why::NotEmitted),
        ),
    ];
    for (name, order, due) in cases {
        let edited = chosen(alloc, &records, order)?;
        let (status, _) = run_bytes(alloc, "--audit", &edited)?;
        assert!(rt; status == due, "{name}: {status} in place of {due}");
    }
    Ok(())
}

#[test]
fn records_are_doubled_and_moved(rt: HostRuntime) -> Result<(), Fail> {
    let alloc = rt.alloc();
    let records = journal(alloc, "", LOST)?;
    let cases = [
        ("an emission doubled", "0 1 2 2 3", Status::Ok),
        ("a hearing doubled", "0 1 2 3 3 4 5 6 7 8 9", Status::Ok),
        (
            "an acknowledgement doubled",
            "0 1 2 3 4 4 5 6",
            refused(567, Why::NotEmitted),
        ),
        ("an opening doubled", "0 0 1 2 3 4", Status::Ok),
        (
            "a loss moved before the emission",
            "0 1 5 2 3",
            refused(18, Why::NotEmitted),
        ),
        (
            "an opening moved behind the emission",
            "0 1 2 3 4 5 7 6",
            refused(573, Why::NotEmitted),
        ),
        (
            "an acknowledgement moved before its hearing",
            "0 1 2 4 3",
            refused(139, Why::NotEmitted),
        ),
        (
            "the agent's records moved to the end",
            "0 2 5 6 7 10 11 12 13 1 3 4 8 9",
            Status::Ok,
        ),
    ];
    for (name, order, due) in cases {
        let edited = chosen(alloc, &records, order)?;
        let (status, _) = run_bytes(alloc, "--audit", &edited)?;
        assert!(rt; status == due, "{name}: {status} in place of {due}");
    }
    Ok(())
}

/// The records of these numbers, of the journal of `LOST`.
fn chosen(alloc: Global, records: &[u8], order: &str) -> Result<Vec<u8>, Fail> {
    let mut edited = Vec::new(alloc);
    for word in order.split_whitespace() {
        let number = read_number(word.as_bytes()).unwrap_or(14) as usize;
        if number < 14 {
            let (from, to) = (PLACES[number], PLACES[number + 1]);
            if let Some(record) = records.get(from..to) {
                edited.extend_from_slice(record)?;
            }
        }
    }
    Ok(edited)
}

#[test]
fn a_byte_of_a_record_is_changed(rt: HostRuntime) -> Result<(), Fail> {
    let alloc = rt.alloc();
    let records = journal(alloc, "", LOST)?;
    let cases = [
        ("a size of 1", 3, 1, "18 BadJournal 0 1"),
        ("a larger size", 3, 3, "18 BadJournal 0 4"),
        ("an end of neither letter", 571, b'X', "18 BadJournal 567 2"),
        ("a kind that is none", 572, 5, "18 BadJournal 567 3"),
        ("a loss that is a close", 572, 4, "18 BadJournal 579 7"),
        ("heard at the wrong end", 143, b'P', "18 BadJournal 139 5"),
        ("a hearing made an emission", 144, 0, "18 BadJournal 139 5"),
        ("another payload", 265, b'b', "18 BadJournal 139 5"),
        ("a hearing of another id", 216, 2, "18 BadJournal 139 8"),
        ("a hearing of another date", 192, 2, "0 Ok"),
        ("an emission of another date", 632, 2, "18 BadJournal 579 7"),
        ("an acknowledgement of another date", 319, 2, "0 Ok"),
    ];
    for (name, place, byte, due) in cases {
        let edited = changed(alloc, &records, place, byte)?;
        let (status, _) = run_bytes(alloc, "--audit", &edited)?;
        let told = format!(in alloc; "{status}")?;
        let line = format!(in alloc; "lab: status {due}")?;
        assert!(rt; told.as_str() == line.as_str(), "{name}: {told}");
    }
    let (status, _) = run_bytes(
        alloc,
        "--audit",
        &records[..records.len().saturating_sub(1)],
    )?;
    assert!(rt; status == refused(1_742, Why::Cut(5)), "{status}");
    Ok(())
}

/// The records with this byte at a place.
fn changed(alloc: Global, records: &[u8], place: usize, byte: u8) -> Result<Vec<u8>, Fail> {
    let mut edited = Vec::new(alloc);
    for (at, old) in records.iter().enumerate() {
        edited.push(if at == place { byte } else { *old })?;
    }
    Ok(edited)
}
