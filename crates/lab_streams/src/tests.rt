//! Scripts with streams, and what they report.

ghost use Rattle.std.specs.Prelude.{IfOk, All};
ghost use Rattle.lab_script.specs.StreamCommand.{IsStreamCommand};

use crate::run;
use chan_io::FaultySink;
use lab_run::Stop;
use lab_script::{Lines, StreamCommand, parse_stream};
use std::alloc::Global;
use std::test::Fail;

// The messages are spelled by the layout of docs/PROTOCOL.md; their digests are SHA-256 of FIPS
// 180-4.

/// The plugin's stream message 0, which line 4 put in: SYN of stream 3, PSH with "hi", FIN.
const EXCHANGE: &str = "00000074\
    696e7075745f73747265616d5f64617461202020202020202020202020202020\
    00000001000000000000000100000000000000000000000000000001\
    00000000000000040000000000000000\
    8a8d2a7eab1e476cc23b8b5e54c0cd2df52a6fca81e2dc82314237753ff33ddd\
    000000010000001a\
    0100000003000000010202000300000068690101000003000000";

/// The same, of line 2: SYN of stream 3.
const OPENING: &str = "00000074\
    696e7075745f73747265616d5f64617461202020202020202020202020202020\
    00000001000000000000000100000000000000000000000000000001\
    00000000000000020000000000000000\
    30656bde983020b4a04d4fb8027463ad8cd15d89d4b953f961654b1d6579b9b9\
    00000001000000080100000003000000";

/// The plugin's stream message 1, the last, which line 3 put in: "c" as Error.
const LAST_MESSAGE: &str = "00000074\
    696e7075745f73747265616d5f64617461202020202020202020202020202020\
    00000001000000000000000100000000000000010000000000000002\
    00000000000000030000000000000000\
    2e7d2c03a9507ae265ecf5b5356885a53393a2029d241394997265a1a25aefc6\
    000000020000000163";

/// The commands of a script.
fn commands(alloc: Global, script: &str) -> Result<Vec<StreamCommand>, Fail>
    ensures { IfOk result (λ commands. All IsStreamCommand commands.items) }
{
    let mut commands = Vec::new(alloc);
    for line in Lines::new(script.as_bytes()) {
        if let Some(command) = parse_stream(alloc, line)? {
            commands.push(command)?;
        }
    }
    Ok(commands)
}

#[test]
fn a_stream_is_opened_written_and_ended(rt: HostRuntime) -> Result<(), Fail> {
    let script = "sopen\nswrite P 3 6869\nsclose P 3\nspush P 1024\npull P\nhear A 0\n\
        stake A 3 10\nstake A 3 10\nspush P 1024\n";
    let report = format!(in rt.alloc();
        "1 sopen sid 3\n2 swrite P done\n3 sclose P done\n4 spush P seq 0\n\
        5 pull P emit 0 {EXCHANGE}\n\
        6 hear A released 1 1:0100000003000000010202000300000068690101000003000000\n\
        6 stream A opened 3\n6 stream A ready 3\n6 stream A ended 3\n\
        7 stake A 6869\n8 stake A ended\n9 spush P empty\n"
    )?;
    let mut sink = FaultySink::new(rt.alloc(), Vec::new(rt.alloc()));
    let commands = commands(rt.alloc(), script)?;
    let end = run(rt.alloc(), 10_000, commands, &mut sink);
    assert!(rt; end == Ok(()), "there is memory");
    assert!(rt;
        sink.taken() == report.as_bytes(),
        "its data and its end come"
    );
    Ok(())
}

#[test]
fn the_last_items_of_a_direction_are_fed(rt: HostRuntime) -> Result<(), Fail> {
    let script = "sopen\nspush P 1024\nlast P 2 63\nspush P 1024\npull P\npull P\nhear A 1\n\
        hear A 0\n";
    let report = format!(in rt.alloc();
        "1 sopen sid 3\n2 spush P seq 0\n3 last P seq 1\n4 spush P past\n\
        5 pull P emit 0 {OPENING}\n6 pull P emit 1 {LAST_MESSAGE}\n7 hear A released 0\n\
        8 hear A finished 2 1:0100000003000000 2:63\n8 stream A opened 3\n"
    )?;
    let mut sink = FaultySink::new(rt.alloc(), Vec::new(rt.alloc()));
    let commands = commands(rt.alloc(), script)?;
    let end = run(rt.alloc(), 10_000, commands, &mut sink);
    assert!(rt; end == Ok(()), "there is memory");
    assert!(rt; sink.taken() == report.as_bytes(), "a stream is opened");
    Ok(())
}

#[test]
fn what_a_feed_leaves_is_fed_after_a_stake(rt: HostRuntime) -> Result<(), Fail> {
    // 128 of the writes are 4,194,304 bytes, which is the most that may wait; a frame of 32,776
    // bytes leaves in 33 pushes.
    let alloc = rt.alloc();
    let write = "61".repeat(alloc, 32_768)?;
    let pushes = "spush P 1024\n".repeat(alloc, 33)?;
    let frame = format!(in alloc; "swrite P 3 {write}\n{pushes}")?;
    let frames = frame.repeat(alloc, 129)?;
    let script = format!(in alloc; "sopen\n{frames}settle\nstake A 3 65536\n")?;
    let end = format!(in alloc;
        "4388 pull A idle\n4389 stake A {write}{write}\n4389 stream A ready 3\n"
    )?;
    let mut sink = FaultySink::new(alloc, Vec::new(alloc));
    let ran = run(alloc, 10_000, commands(alloc, &script)?, &mut sink);
    assert!(rt; ran == Ok(()), "there is memory");
    assert!(rt;
        sink.taken().ends_with(end.as_bytes()),
        "the last write comes once there is room"
    );
    Ok(())
}

#[test]
fn outgoing_bytes_have_a_bound(rt: HostRuntime) -> Result<(), Fail> {
    // 31 frames of 32,776 bytes and the SYN of 8 are 1,016,064 bytes: 992 pushes of 1,024, and 256.
    let alloc = rt.alloc();
    let data = "00".repeat(alloc, 32_768)?;
    let write = format!(in alloc; "swrite P 3 {data}\n")?;
    let writes = write.repeat(alloc, 32)?;
    let pushes = "spush P 1024\n".repeat(alloc, 992)?;
    let script = format!(in alloc; "sopen\n{writes}{pushes}spush P 255\nspush P 1\nspush P 1\n")?;
    let mut report = format!(in alloc; "1 sopen sid 3\n")?;
    for line in 2..33u32 {
        report.push_str(&format!(in alloc; "{line} swrite P done\n")?)?;
    }
    report.push_str("33 swrite P full\n")?;
    for number in 0..994u32 {
        let line = number.saturating_add(34);
        report.push_str(&format!(in alloc; "{line} spush P seq {number}\n")?)?;
    }
    report.push_str("1028 spush P empty\n")?;
    let mut sink = FaultySink::new(alloc, Vec::new(alloc));
    let ran = run(alloc, 10_000, commands(alloc, &script)?, &mut sink);
    assert!(rt; ran == Ok(()), "there is memory");
    assert!(rt;
        sink.taken() == report.as_bytes(),
        "31 writes go out, and no more"
    );
    Ok(())
}

#[test]
fn a_failed_write_is_told(rt: HostRuntime) -> Result<(), Fail> {
    let alloc = rt.alloc();
    let mut sink = FaultySink::new(alloc, vec![in alloc; 0u64; 1]?);
    let end = run(alloc, 1, commands(alloc, "sopen\n")?, &mut sink);
    assert!(rt; end == Err(Stop::Write), "the one write fails");
    Ok(())
}
