//! What scripts with the relay report.

use super::run_with;
use crate::Status;
use std::test::Fail;

/// The plugin's stream message 0, which line 5 put in: one byte, 61.
const MESSAGE: &str = "00000074\
    696e7075745f73747265616d5f64617461202020202020202020202020202020\
    00000001000000000000000100000000000000000000000000000001\
    00000000000000050000000000000000\
    ca978112ca1bbdcafac231b39a23dc4da786eff8147c4e72b9807785afee48bb\
    000000010000000161";

#[test]
fn the_relay_forwards_pauses_and_ends(rt: HostRuntime) -> Result<(), Fail> {
    let report = format!(in rt.alloc();
        "1 dial A conn 0\n2 take A paused\n3 dial P conn 1\n4 take A started\n5 put P seq 0\n\
        6 pull P emit 0 {MESSAGE}\n7 post P sent\n8 take A released 1 1:61\n9 finish\n\
        10 take P ended\n11 post P dropped\n"
    )?;
    let script = "dial A\ntake A 0\ndial P\ntake A 1\nput P 1 61\npull P\npost P 0\ntake A 2\n\
        finish\ntake P 0\npost P 0\n";
    for words in ["--relay", "--window 1 --relay"] {
        let (status, sink) = run_with(rt.alloc(), words, script)?;
        assert!(rt; status == Status::Ok, "{status}");
        assert!(rt;
            sink.taken() == report.as_bytes(),
            "{words}: another report"
        );
    }
    Ok(())
}

#[test]
fn a_bad_line_of_the_relay_is_told(rt: HostRuntime) -> Result<(), Fail> {
    let cases = [
        ("--relay", "pull P\nsettle\n", 2),
        ("--relay", "hear P 0\n", 1),
        ("--relay", "sopen\n", 1),
        ("--relay", "finish P\n", 1),
        ("--relay", "dial P\ntake P\n", 2),
        ("", "dial P\n", 1),
        ("--streams", "sopen\nfinish\n", 2),
    ];
    for (words, script, line) in cases {
        let (status, sink) = run_with(rt.alloc(), words, script)?;
        assert!(rt;
            status == Status::Script(line),
            "{words} {script:?}: {status}"
        );
        assert!(rt; sink.taken().is_empty(), "nothing is written");
    }
    Ok(())
}
