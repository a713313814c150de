//! What a deliverer comes to.

ghost use Rattle.std.specs.Prelude.{◌≡◌, []};

use super::keeping_session::{KeepingSession, Plan};
use super::serving::{Met, serve};
use crate::DeliverEnd;
use chan_io::FaultySpawner;
use chan_values::{Bytes, Item, Items};
use session_crews::CountingFeeder;
use session_feeds::SessionFault;
use session_run::Parcel;
use std::alloc::Global;
use std::test::Fail;

/// A plan that asks for nothing, and agrees.
fn plan(alloc: Global) -> Plan
    ensures { result.puts ≡ [] }
{
    Plan {
        puts: Items::none(alloc),
        last: false,
        finish_at: 9,
        fault_at: None,
        unready: 0,
        agrees: true,
    }
}

/// A run with these starts of workers that fail, with parcels that arrived and one behind the last.
fn met(alloc: Global, refused: &[u64]) -> Result<Met, Fail> {
    let mut parcels = Vec::new(alloc);
    parcels.push(Parcel::Arrived(Item {
        ptype: 7,
        payload: Bytes::new(Vec::new(alloc)),
    }))?;
    parcels.push(Parcel::Finished)?;
    Ok(Met {
        parcels,
        closed: false,
        depth: 9,
        spawner: FaultySpawner::new(alloc, Vec::from_slice(alloc, refused)?),
        starter: FaultySpawner::new(alloc, Vec::new(alloc)),
    })
}

#[test]
fn a_session_is_served_until_it_refuses(rt: HostRuntime) -> Result<(), Fail> {
    let alloc = rt.alloc();
    let mut plan = plan(alloc);
    plan.fault_at = Some(3);
    plan.unready = 2;
    let feeder = CountingFeeder::new(alloc, 7, 3);
    let session = KeepingSession::new(alloc, plan, Some(feeder));
    let served = serve(&rt, alloc, session, met(alloc, &[])?)?;
    let end = served.done.ended;
    assert!(rt;
        end == Some(DeliverEnd::Fault(SessionFault::Write)),
        "the refusal"
    );
    assert_eq!(rt;
        served.done.session.taken.len(),
        2,
        "the parcels before the refused one"
    );
    assert!(rt; served.done.session.out.is_none(), "its feeder is back");
    assert_eq!(rt; served.look.next, 3, "the pieces of its feeder were put in");
    assert!(rt; served.look.closed, "the end is closed");
    assert!(rt;
        served.count.fault && !served.count.finish,
        "a fault was noted"
    );
    assert!(rt; !served.done.refusals.no_memory, "no want of memory");
    Ok(())
}

#[test]
fn what_waits_is_served_at_a_closed_end(rt: HostRuntime) -> Result<(), Fail> {
    let alloc = rt.alloc();
    let mut plan = plan(alloc);
    plan.finish_at = 1;
    plan.unready = 1;
    let session = KeepingSession::new(alloc, plan, None);
    let mut met = met(alloc, &[])?;
    met.closed = true;
    let served = serve(&rt, alloc, session, met)?;
    assert!(rt;
        served.done.ended == Some(DeliverEnd::Closed),
        "the end was closed"
    );
    assert_eq!(rt;
        served.done.session.taken.len(),
        2,
        "all parcels that waited"
    );
    assert!(rt;
        served.count.finish && !served.count.fault,
        "a finish was noted"
    );
    assert_eq!(rt; served.count.parcels, 0, "nothing waits");
    Ok(())
}

#[test]
fn a_feeder_without_a_thread_comes_back(rt: HostRuntime) -> Result<(), Fail> {
    let alloc = rt.alloc();
    let feeder = CountingFeeder::new(alloc, 7, 3);
    let session = KeepingSession::new(alloc, plan(alloc), Some(feeder));
    let served = serve(&rt, alloc, session, met(alloc, &[0])?)?;
    assert!(rt;
        served.done.ended == Some(DeliverEnd::NoThread),
        "no thread"
    );
    assert!(rt; served.done.refusals.no_thread, "it is told");
    assert!(rt; served.done.session.out.is_none(), "its feeder is back");
    assert_eq!(rt; served.look.next, 0, "nothing was put in");
    assert!(rt;
        served.look.closed && !served.count.fault,
        "the end is closed"
    );
    assert_eq!(rt; served.count.parcels, 2, "the parcels wait");
    Ok(())
}

#[test]
fn a_feeder_below_all_depth_comes_back(rt: HostRuntime) -> Result<(), Fail> {
    let alloc = rt.alloc();
    let feeder = CountingFeeder::new(alloc, 7, 3);
    let session = KeepingSession::new(alloc, plan(alloc), Some(feeder));
    let mut met = met(alloc, &[])?;
    met.depth = 0;
    let served = serve(&rt, alloc, session, met)?;
    assert!(rt;
        served.done.ended == Some(DeliverEnd::NoMemory),
        "no memory"
    );
    assert!(rt; served.done.refusals.no_memory, "it is told");
    assert!(rt; served.done.session.out.is_none(), "its feeder is back");
    Ok(())
}

#[test]
fn a_deliverer_without_a_thread_does_nothing(rt: HostRuntime) -> Result<(), Fail> {
    let alloc = rt.alloc();
    let session = KeepingSession::new(alloc, plan(alloc), None);
    let mut met = met(alloc, &[])?;
    met.starter = FaultySpawner::new(alloc, Vec::from_slice(alloc, &[0])?);
    let served = serve(&rt, alloc, session, met)?;
    assert!(rt; served.done.ended.is_none(), "it was not started");
    assert!(rt; !served.done.session.begun, "the session was not begun");
    assert!(rt; !served.look.closed, "the end is open");
    assert_eq!(rt; served.count.parcels, 2, "the parcels wait");
    Ok(())
}
