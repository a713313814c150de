//! What no clause says: how the worker ends, once for each end.

use crate::{Mark, SendEnd, SendJob};
use chan_io::{FaultyLinkOut, Job, StillClock};
use chan_values::{Bytes, Side};
use relay_core::Event;
use relay_switch::{Outlet, Switch, switch_seat};
use session_register::SessionName;
use std::test::Fail;
use turn_lock::TurnLock;

#[test]
fn a_writer_ends_with_its_connection(rt: HostRuntime) -> Result<(), Fail> {
    let alloc = rt.alloc();
    // The connection is over, its first send fails, the mark is set.
    let cases = [
        (false, false, SendEnd::Over),
        (true, false, SendEnd::Failed),
        (false, true, SendEnd::Stopped),
    ];
    for (fails, is_set, expected) in cases {
        let (switch, mut seat) = TurnLock::new(alloc, Switch::new(alloc))?;
        let opened = Event::Opened {
            conn: 1,
            session: SessionName::new(b"s-1").ok_or("no name")?,
            role: Side::Plugin,
            reply: Bytes::new(Vec::from_slice(alloc, b"hi")?),
        };
        switch_seat::step(&rt, &switch, &mut seat, &StillClock, opened, [7; 16], 9);
        let gone = Event::Gone { conn: 1 };
        switch_seat::step(&rt, &switch, &mut seat, &StillClock, gone, [7; 16], 9);
        let mine = switch.split(&mut seat)?;
        let mut failing = Vec::new(alloc);
        if fails {
            failing.push(0)?;
        }
        let mark = Mark::new();
        if is_set {
            mark.set();
        }
        let job = SendJob {
            rt: &rt,
            switch: &switch,
            clock: &StillClock,
            mark: &mark,
            outlet: Outlet::new(1, FaultyLinkOut::new(alloc, failing), mine),
        };
        let done = job.run();
        assert_eq!(rt; done.end, expected);
        assert_eq!(rt; done.outlet.output.shuts(), 1);
    }
    Ok(())
}
