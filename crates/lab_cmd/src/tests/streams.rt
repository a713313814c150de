//! What scripts with streams report.

use super::run_with;
use crate::Status;
use std::test::Fail;

/// The frames of the stream 3: its SYN, the bytes 6869, and its FIN.
const FRAMES: &str = "0100000003000000\
    01020200030000006869\
    0101000003000000";

/// The head of the plugin's stream message 0, which line 4 put in, with the digest of the frames, the
/// payload type and the payload's length.
const HEAD: &str = "00000074\
    696e7075745f73747265616d5f64617461202020202020202020202020202020\
    00000001000000000000000100000000000000000000000000000001\
    00000000000000040000000000000000\
    8a8d2a7eab1e476cc23b8b5e54c0cd2df52a6fca81e2dc82314237753ff33ddd\
    000000010000001a";

#[test]
fn a_stream_goes_over_the_channel(rt: HostRuntime) -> Result<(), Fail> {
    let report = format!(in rt.alloc();
        "1 sopen sid 3\n2 swrite P done\n3 sclose P done\n4 spush P seq 0\n\
        5 pull P emit 0 {HEAD}{FRAMES}\n6 hear A released 1 1:{FRAMES}\n\
        6 stream A opened 3\n6 stream A ready 3\n6 stream A ended 3\n\
        7 stake A 6869\n8 stake A ended\n9 spush P empty\n"
    )?;
    let script = "sopen\nswrite P 3 6869\nsclose P 3\nspush P 1024\npull P\nhear A 0\n\
        stake A 3 10\nstake A 3 10\nspush P 1024\n";
    for words in ["--streams", "--window 2 --streams"] {
        let (status, sink) = run_with(rt.alloc(), words, script)?;
        assert!(rt; status == Status::Ok, "{status}");
        assert!(rt;
            sink.taken() == report.as_bytes(),
            "{words}: another report"
        );
    }
    Ok(())
}

#[test]
fn plain_lines_are_lines_beside_streams(rt: HostRuntime) -> Result<(), Fail> {
    let script = "put P 2 61\nlast A 12 -\nat 7\nhear P 0\nclose A\nspush A 1\n";
    let report = "1 put P seq 0\n2 last A seq 0\n4 hear P absent\n5 close A\n6 spush A closed\n";
    let (status, sink) = run_with(rt.alloc(), "--streams", script)?;
    assert!(rt; status == Status::Ok, "{status}");
    assert!(rt; sink.taken() == report.as_bytes(), "another report");
    Ok(())
}

#[test]
fn a_bad_line_of_streams_is_told(rt: HostRuntime) -> Result<(), Fail> {
    let cases = [
        ("--streams", "pull P\nput P 1 61\n", 2),
        ("--streams", "pull P\npull P\nlast P 1 -\n", 3),
        ("--streams", "sopen P\n", 1),
        ("--streams", "spush P 1025\n", 1),
        ("--streams", "stream P opened 3\n", 1),
        ("--streams", "sopen\ndial P\n", 2),
        ("", "pull P\nsopen\n", 2),
        ("--window 5", "spush P 1\n", 1),
    ];
    for (words, script, line) in cases {
        let (status, sink) = run_with(rt.alloc(), words, script)?;
        assert!(rt;
            status == Status::Script(line),
            "{words} {script:?}: {status}"
        );
        assert!(rt; sink.taken().is_empty(), "nothing is written");
    }
    Ok(())
}
