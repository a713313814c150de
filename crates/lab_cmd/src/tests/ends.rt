//! What scripts report of directions that end.

use super::reports::PLUGIN_MESSAGE;
use super::run;
use crate::Status;
use std::test::Fail;

/// The plugin's stream message 1, the last, which line 2 put in: a flag, 2.
const LAST_MESSAGE: &str = "00000074\
    696e7075745f73747265616d5f64617461202020202020202020202020202020\
    00000001000000000000000100000000000000010000000000000002\
    00000000000000020000000000000000\
    433ebf5bc03dffa38536673207a21281612cef5faa9bc7a4d5b9be2fdb12cf1a\
    0000000a0000000400000002";

/// The plugin's stream message 0 where it is the last.
const ONLY_MESSAGE: &str = "00000074\
    696e7075745f73747265616d5f64617461202020202020202020202020202020\
    00000001000000000000000100000000000000000000000000000003\
    00000000000000010000000000000000\
    ca978112ca1bbdcafac231b39a23dc4da786eff8147c4e72b9807785afee48bb\
    000000010000000161";

#[test]
fn a_direction_ends_with_its_last_item(rt: HostRuntime) -> Result<(), Fail> {
    let report = format!(in rt.alloc();
        "1 put P seq 0\n2 last P seq 1\n3 put P past\n4 pull P emit 0 {PLUGIN_MESSAGE}\n\
        5 pull P emit 1 {LAST_MESSAGE}\n6 hear A released 0\n\
        7 hear A finished 2 1:61 10:00000002\n8 put A seq 0\n"
    )?;
    let script = "put P 1 61\nlast P 10 00000002\nput P 1 62\npull P\npull P\nhear A 1\n\
        hear A 0\nput A 1 63\n";
    let (status, sink) = run(rt.alloc(), script)?;
    assert!(rt; status == Status::Ok, "{status}");
    assert!(rt;
        sink.taken() == report.as_bytes(),
        "the second message is the last"
    );
    Ok(())
}

#[test]
fn the_first_message_may_be_the_last(rt: HostRuntime) -> Result<(), Fail> {
    let report = format!(in rt.alloc(); "1 last P seq 0\n2 pull P emit 0 {ONLY_MESSAGE}\n")?;
    let (status, sink) = run(rt.alloc(), "last P 1 61\npull P\n")?;
    assert!(rt; status == Status::Ok, "{status}");
    assert!(rt;
        sink.taken() == report.as_bytes(),
        "its flags are SYN and FIN"
    );
    Ok(())
}
