//! What scripts report.

use super::{run, run_with};
use crate::Status;
use std::test::Fail;

// The encodings are those of the layout of the binary message, by a writer apart from the programs.

/// The plugin's stream message 0, which line 1 put in: one byte, 61.
pub const PLUGIN_MESSAGE: &str = "00000074\
    696e7075745f73747265616d5f64617461202020202020202020202020202020\
    00000001000000000000000100000000000000000000000000000001\
    00000000000000010000000000000000\
    ca978112ca1bbdcafac231b39a23dc4da786eff8147c4e72b9807785afee48bb\
    000000010000000161";

/// The agent's stream message 0, which line 2 put in: one byte, 62.
const AGENT_MESSAGE: &str = "00000074\
    6f75747075745f73747265616d5f646174612020202020202020202020202020\
    00000001000000000000000100000000000000000000000000000001\
    00000000000000020000000000000000\
    3e23e8160039594a33894f6564e1b1348bbd7a0088d42c4acb73eeaed59c009d\
    000000010000000162";

/// The agent's acknowledgement of the plugin's message.
const AGENT_ACK: &str = "00000074\
    61636b6e6f776c65646765202020202020202020202020202020202020202020\
    00000001000000000000000100000000000000000000000000000003\
    00000000000000010000000000000000\
    fdb9b1b52b22308906ab4f98643fcd80d9555fbf67a238735a9d7e72b4e12044\
    00000000000000af\
    7b2241636b6e6f776c65646765644d6573736167654964223a2230303030303030302d303030302d\
    303030302d303030302d303030303030303030303031222c2241636b6e6f776c65646765644d6573\
    7361676553657175656e63654e756d626572223a302c2241636b6e6f776c65646765644d65737361\
    676554797065223a22696e7075745f73747265616d5f64617461222c22497353657175656e746961\
    6c4d657373616765223a747275657d";

/// The plugin's stream message 0, which line 10 put in: one byte, 61.
const TENTH_LINE_MESSAGE: &str = "00000074\
    696e7075745f73747265616d5f64617461202020202020202020202020202020\
    00000001000000000000000100000000000000000000000000000001\
    000000000000000a0000000000000000\
    ca978112ca1bbdcafac231b39a23dc4da786eff8147c4e72b9807785afee48bb\
    000000010000000161";

/// The agent's acknowledgement of it.
const TENTH_LINE_ACK: &str = "00000074\
    61636b6e6f776c65646765202020202020202020202020202020202020202020\
    00000001000000000000000100000000000000000000000000000003\
    000000000000000a0000000000000000\
    62baadacad63d73bb28d3694e6dd249da3ea438c4c8e8e83c1c4ef9340818291\
    00000000000000af\
    7b2241636b6e6f776c65646765644d6573736167654964223a2230303030303030302d303030302d\
    303030302d303030302d303030303030303030303061222c2241636b6e6f776c65646765644d6573\
    7361676553657175656e63654e756d626572223a302c2241636b6e6f776c65646765644d65737361\
    676554797065223a22696e7075745f73747265616d5f64617461222c22497353657175656e746961\
    6c4d657373616765223a747275657d";

#[test]
fn each_line_reports_what_it_did(rt: HostRuntime) -> Result<(), Fail> {
    let cases = [
        ("pull P", "1 pull P idle\n"),
        ("put P 1 61\nput P 1 -\n", "1 put P seq 0\n2 put P seq 1\n"),
        (
            "hear A 0\nhear A last\n",
            "1 hear A absent\n2 hear A absent\n",
        ),
        (
            "end P\nput P 1 61\npull P\n",
            "1 end P ended\n2 put P closed\n3 pull P idle\n",
        ),
        ("close A\npause A\n", "1 close A\n2 pause A after-close\n"),
        (
            "pause P\nstart P\nlost P\nopen P\n",
            "1 pause P paused\n2 start P started\n3 lost P\n4 open P\n",
        ),
        ("at 5\ntick P\n", "2 tick P nothing\n"),
        (
            "at 5\nsettle\n",
            "2 open P\n2 open A\n2 pull P idle\n2 pull A idle\n",
        ),
        (
            "at 5\nat 3\ntick A\nstart A\n",
            "3 tick A nothing\n4 start A started\n",
        ),
    ];
    for (script, report) in cases {
        let (status, sink) = run(rt.alloc(), script)?;
        assert!(rt; status == Status::Ok, "{script:?}: {status}");
        assert!(rt; sink.taken() == report.as_bytes(), "{script:?}");
    }
    Ok(())
}

#[test]
fn a_damaged_payload_is_refused(rt: HostRuntime) -> Result<(), Fail> {
    let cases = [
        (
            "put P 1 63\npull P\nhurt A 0 0\nhear A 0\n",
            "\n3 hurt A refused 7\n4 hear A released 1 1:63\n",
        ),
        (
            "put P 1 616263\npull P\nhurt A last 2\nhurt A 0 3\n",
            "\n3 hurt A refused 7\n4 hurt A absent\n",
        ),
        (
            "put P 1 61\npull P\nhurt A 0 18446744073709551615\nhurt A 1 0\n",
            "\n3 hurt A absent\n4 hurt A absent\n",
        ),
        ("put P 1 -\npull P\nhurt A 0 0\n", "\n3 hurt A absent\n"),
        ("hurt P last 0\n", "1 hurt P absent\n"),
        (
            "put P 1 61\npull P\nhear A 0\npull A\nhurt P 0 0\nhear P 0\n",
            "\n5 hurt P refused 7\n6 hear P acked 0\n",
        ),
    ];
    for (script, end) in cases {
        let (status, sink) = run(rt.alloc(), script)?;
        assert!(rt; status == Status::Ok, "{script:?}: {status}");
        assert!(rt; sink.taken().ends_with(end.as_bytes()), "{script:?}");
    }
    Ok(())
}

#[test]
fn a_message_is_answered_by_what_came_before(rt: HostRuntime) -> Result<(), Fail> {
    let cases = [
        (
            "put P 1 61\npull P\nhear A 0\nhear A 0\npull A\nhear P 0\nhear P 0\n",
            "\n6 hear P acked 0\n7 hear P unknown-ack 0\n",
        ),
        (
            "put P 1 61\npull P\nhear A 0\nhear A 0\n",
            "\n3 hear A released 1 1:61\n4 hear A late\n",
        ),
        (
            "put P 1 61\npull P\nat 200\ntick P\nat 201\ntick P\ntick P\n",
            "\n4 tick P nothing\n6 tick P due 0\n7 tick P nothing\n",
        ),
    ];
    for (script, end) in cases {
        let (status, sink) = run(rt.alloc(), script)?;
        assert!(rt; status == Status::Ok, "{script:?}: {status}");
        assert!(rt; sink.taken().ends_with(end.as_bytes()), "{script:?}");
    }
    Ok(())
}

#[test]
fn items_are_released_in_the_order_of_their_puts(rt: HostRuntime) -> Result<(), Fail> {
    let script = "put P 1 61\nput P 12 6263\nput P 1 -\npull P\npull P\npull P\n\
        hear A 2\nhear A 1\nhear A 0\n";
    let end = "\n7 hear A released 0\n8 hear A released 0\n\
        9 hear A released 3 1:61 12:6263 1:-\n";
    let (status, sink) = run(rt.alloc(), script)?;
    assert!(rt; status == Status::Ok, "{status}");
    assert!(rt;
        sink.taken().ends_with(end.as_bytes()),
        "the order of the puts"
    );
    Ok(())
}

#[test]
fn an_id_has_the_number_of_its_line_with_letters(rt: HostRuntime) -> Result<(), Fail> {
    let script = "at 0\nat 0\nat 0\nat 0\nat 0\nat 0\nat 0\nat 0\nat 0\n\
        put P 1 61\npull P\nhear A 0\npull A\n";
    let report = format!(in rt.alloc();
        "10 put P seq 0\n11 pull P emit 0 {TENTH_LINE_MESSAGE}\n12 hear A released 1 1:61\n\
        13 pull A emit 0 {TENTH_LINE_ACK}\n"
    )?;
    let (status, sink) = run(rt.alloc(), script)?;
    assert!(rt; status == Status::Ok, "{status}");
    assert!(rt; sink.taken() == report.as_bytes(), "the id and its text");
    Ok(())
}

#[test]
fn a_message_is_given_up_after_3000_times(rt: HostRuntime) -> Result<(), Fail> {
    let alloc = rt.alloc();
    let mut script = String::new(alloc);
    script.push_str("put P 1 61\npull P\n")?;
    for i in 0..3_000u64 {
        let moment = 201 * (i + 1);
        let lines = format!(in alloc; "at {moment}\ntick P\npull P\n")?;
        script.push_str(lines.as_str())?;
    }
    script.push_str("at 603201\ntick P\nput P 1 61\n")?;
    let (status, sink) = run(alloc, script.as_str())?;
    assert!(rt; status == Status::Ok, "{status}");
    assert!(rt;
        sink.taken()
            .ends_with(b"\n9004 tick P gave-up 0\n9005 put P closed\n"),
        "the 3,001st time is the last"
    );
    Ok(())
}

#[test]
fn a_settle_delivers_what_each_end_has(rt: HostRuntime) -> Result<(), Fail> {
    let report = format!(in rt.alloc();
        "1 put P seq 0\n2 put A seq 0\n3 open P\n3 open A\n\
        3 pull P emit 0 {PLUGIN_MESSAGE}\n3 hear A released 1 1:61\n3 pull P idle\n\
        3 pull A emit 0 {AGENT_ACK}\n3 hear P acked 0\n\
        3 pull A emit 1 {AGENT_MESSAGE}\n3 hear P released 1 1:62\n3 pull A idle\n"
    )?;
    let (status, sink) = run(rt.alloc(), "put P 1 61\nput A 1 62\nsettle\n")?;
    assert!(rt; status == Status::Ok, "{status}");
    assert!(rt; sink.taken() == report.as_bytes(), "both messages arrive");
    Ok(())
}

#[test]
fn a_settle_sends_a_lost_message_again(rt: HostRuntime) -> Result<(), Fail> {
    let report = format!(in rt.alloc();
        "1 put P seq 0\n2 pull P emit 0 {PLUGIN_MESSAGE}\n3 open P\n3 open A\n\
        3 pull P emit 1 {PLUGIN_MESSAGE}\n3 hear A released 1 1:61\n3 pull P idle\n\
        3 pull A emit 0 {AGENT_ACK}\n3 hear P acked 0\n3 pull A idle\n\
        4 open P\n4 open A\n4 pull P idle\n4 pull A idle\n"
    )?;
    let (status, sink) = run(rt.alloc(), "put P 1 61\npull P\nsettle\nsettle\n")?;
    assert!(rt; status == Status::Ok, "{status}");
    assert!(rt; sink.taken() == report.as_bytes(), "the message arrives");
    Ok(())
}

#[test]
fn a_settle_gives_a_closed_end_nothing(rt: HostRuntime) -> Result<(), Fail> {
    let report = format!(in rt.alloc();
        "1 close P\n2 put A seq 0\n3 open P\n3 open A\n3 pull P idle\n\
        3 pull A emit 0 {AGENT_MESSAGE}\n3 hear P after-close\n3 pull A idle\n"
    )?;
    let (status, sink) = run(rt.alloc(), "close P\nput A 1 62\nsettle\n")?;
    assert!(rt; status == Status::Ok, "{status}");
    assert!(rt;
        sink.taken() == report.as_bytes(),
        "the message is passed over"
    );
    Ok(())
}

#[test]
fn a_full_window_takes_no_more(rt: HostRuntime) -> Result<(), Fail> {
    let alloc = rt.alloc();
    let mut script = String::new(alloc);
    for _ in 0..10_001 {
        script.push_str("put P 1 61\n")?;
    }
    let (status, sink) = run(alloc, script.as_str())?;
    assert!(rt; status == Status::Ok, "{status}");
    assert!(rt;
        sink.taken()
            .ends_with(b"\n10000 put P seq 9999\n10001 put P full\n"),
        "the last put is refused"
    );
    Ok(())
}

#[test]
fn the_window_is_that_of_the_words(rt: HostRuntime) -> Result<(), Fail> {
    let cases = [
        ("", "1 put P seq 0\n2 put P seq 1\n"),
        ("--window 1", "1 put P seq 0\n2 put P full\n"),
        ("--window 2", "1 put P seq 0\n2 put P seq 1\n"),
        ("--window 10000", "1 put P seq 0\n2 put P seq 1\n"),
    ];
    for (line, report) in cases {
        let (status, sink) = run_with(rt.alloc(), line, "put P 1 61\nput P 1 62\n")?;
        assert!(rt; status == Status::Ok, "{line}: {status}");
        assert!(rt; sink.taken() == report.as_bytes(), "{line}");
    }
    Ok(())
}
