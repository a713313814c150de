//! The lines of generated runs.

use crate::run_generated;
use chan_io::FaultySink;
use lab_run::Stop;
use std::alloc::Global;
use std::test::Fail;

// The counts are those of model/, which is apart from the crates.

#[test]
fn a_run_tells_what_was_put_in_and_released(rt: HostRuntime) -> Result<(), Fail> {
    let cases = [
        (1, 3, "gen 1 put P 1 A 0 released A 1 P 0\n"),
        (
            1,
            18_446_744_073_709_551_615,
            "gen 1 put P 0 A 0 released A 0 P 0\n",
        ),
    ];
    for (rounds, start, line) in cases {
        let mut sink = FaultySink::new(rt.alloc(), Vec::new(rt.alloc()));
        let end = run_generated(rt.alloc(), rounds, start, &mut sink);
        assert!(rt; end == Ok(()), "{line}");
        assert!(rt; sink.taken() == line.as_bytes(), "{line}");
    }
    Ok(())
}

#[test]
fn a_failed_write_is_told(rt: HostRuntime) -> Result<(), Fail> {
    let alloc = rt.alloc();
    let mut sink = FaultySink::new(alloc, vec![in alloc; 0u64; 1]?);
    let end = run_generated(alloc, 1, 3, &mut sink);
    assert!(rt; end == Err(Stop::Write), "the one write fails");
    Ok(())
}
