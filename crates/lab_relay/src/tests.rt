//! What scripts report, and that memory is found.

ghost use Rattle.std.specs.Prelude.{IfOk, All};
ghost use Rattle.lab_script.specs.RelayCommand.{IsRelayCommand};

use crate::run;
use chan_io::FaultySink;
use lab_run::Stop;
use lab_script::{RelayCommand, parse_relay};
use std::alloc::Global;
use std::test::Fail;

// The reports are those of model/, which is apart from the crates.

/// The plugin's stream message 0, one byte, 61, which line 5 put in.
const FIFTH_LINE_MESSAGE: &str = "00000074\
    696e7075745f73747265616d5f64617461202020202020202020202020202020\
    00000001000000000000000100000000000000000000000000000001\
    00000000000000050000000000000000\
    ca978112ca1bbdcafac231b39a23dc4da786eff8147c4e72b9807785afee48bb\
    000000010000000161";

/// The same, where line 3 put it in.
const THIRD_LINE_MESSAGE: &str = "00000074\
    696e7075745f73747265616d5f64617461202020202020202020202020202020\
    00000001000000000000000100000000000000000000000000000001\
    00000000000000030000000000000000\
    ca978112ca1bbdcafac231b39a23dc4da786eff8147c4e72b9807785afee48bb\
    000000010000000161";

/// Two ends exchange an item over the relay, and the session ends.
const SESSION: &[&str] = &[
    "dial A",
    "take A 0",
    "dial P",
    "take A 1",
    "put P 1 61",
    "pull P",
    "post P 0",
    "take A 2",
    "finish",
    "take P 0",
    "post P 0",
];

/// A message that is sent before the other end is there is lost, and so is one over a lost connection.
const LOSSES: &[&str] = &[
    "gone P",
    "dial P",
    "put P 1 61",
    "pull P",
    "post P 0",
    "dial A",
    "dial P",
    "post P 0",
    "gone P",
    "post P 0",
    "take A 0",
    "take A 1",
    "take A 1",
    "take A last",
    "post P 1",
    "finish",
    "dial P",
    "take P last",
    "take P 9",
];

/// The commands of a script.
fn commands(alloc: Global, lines: &[&str]) -> Result<Vec<RelayCommand>, Fail>
    ensures { IfOk result (λ commands. All IsRelayCommand commands.items) }
{
    let mut commands = Vec::new(alloc);
    for line in lines {
        if let Some(command) = parse_relay(alloc, line.as_bytes())? {
            commands.push(command)?;
        }
    }
    Ok(commands)
}

#[test]
fn each_line_reports_what_it_did(rt: HostRuntime) -> Result<(), Fail> {
    let alloc = rt.alloc();
    let session = format!(in alloc;
        "1 dial A conn 0\n2 take A paused\n3 dial P conn 1\n4 take A started\n5 put P seq 0\n\
         6 pull P emit 0 {FIFTH_LINE_MESSAGE}\n7 post P sent\n8 take A released 1 1:61\n9 finish\n\
         10 take P ended\n11 post P dropped\n"
    )?;
    let losses = format!(in alloc;
        "1 gone P\n2 dial P conn 0\n3 put P seq 0\n4 pull P emit 0 {THIRD_LINE_MESSAGE}\n\
         5 post P sent\n6 dial A conn 1\n7 dial P conn 2\n8 post P sent\n9 gone P\n\
         10 post P dropped\n11 take A started\n12 take A released 1 1:61\n13 take A late\n\
         14 take A paused\n15 post P absent\n16 finish\n17 dial P conn 3\n18 take P ended\n\
         19 take P absent\n"
    )?;
    for (lines, report) in [(SESSION, &session), (LOSSES, &losses)] {
        let mut sink = FaultySink::new(alloc, Vec::new(alloc));
        let end = run(alloc, 10_000, commands(alloc, lines)?, &mut sink);
        assert!(rt; end == Ok(()), "the run ends");
        let text = str::from_utf8(sink.taken()).ok().ok_or("no text")?;
        assert_eq!(rt; text, report.as_str());
    }
    Ok(())
}

#[test]
fn a_failed_write_is_told(rt: HostRuntime) -> Result<(), Fail> {
    let alloc = rt.alloc();
    let mut sink = FaultySink::new(alloc, vec![in alloc; 0u64; 1]?);
    let end = run(alloc, 1, commands(alloc, SESSION)?, &mut sink);
    assert!(rt; end == Err(Stop::Write), "the one write fails");
    Ok(())
}
