use crate::run_journal;
use chan_io::FaultySink;
use std::test::Fail;

#[test]
fn both_ends_are_connected_before_the_first_line(rt: HostRuntime) -> Result<(), Fail> {
    let mut sink = FaultySink::new(rt.alloc(), Vec::new(rt.alloc()));
    let done = run_journal(rt.alloc(), 10, Vec::new(rt.alloc()), &mut sink);
    assert_eq!(rt; done, Ok(()));
    let opened = b"\x00\x00\x00\x02P\x02\x00\x00\x00\x02A\x02";
    assert_eq!(rt; sink.taken(), opened.as_slice());
    Ok(())
}
