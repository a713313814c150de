use crate::{FaultyChildEnd, FaultyStarter, Program, Starter, SteadyStarter, Waited};
use chan_io::{Sink, Source, Text};
use std::alloc::{AllocError, Global};
use std::test::Fail;

/// A starter of one child, which writes two bytes and reports one, and whose first start fails.
fn starter_of_one(alloc: Global) -> Result<FaultyStarter, AllocError> {
    let program = Program {
        writes: vec![in alloc; 97, 98]?,
        reports: vec![in alloc; 99]?,
        status: 3,
        failing_input: Vec::new(alloc),
        failing_output: Vec::new(alloc),
        failing_errors: Vec::new(alloc),
        failing_waits: Vec::new(alloc),
    };
    let programs = vec![in alloc; program]?;
    Ok(FaultyStarter::new(alloc, programs, vec![in alloc; 0]?))
}

/// How many bytes the next child writes and reports, and its status, where it is started and takes a byte.
fn start_one<S: Starter>(starter: &mut S, name: &Text) -> Option<(usize, usize, i32)> {
    let mut child = starter.start(name).ok()?;
    let mut piece = [0u8; 4];
    child.stdin.write(b"x").ok()?;
    let written = child.stdout.read(&mut piece).ok()?;
    let reported = child.stderr.read(&mut piece).ok()?;
    let status = child.end.wait().ok()?;
    Some((written, reported, status))
}

#[test]
fn a_starter_gives_its_children(rt: HostRuntime) -> Result<(), Fail> {
    let name = Text::new(String::new(rt.alloc()));
    let mut starter = starter_of_one(rt.alloc())?;
    assert!(rt;
        start_one(&mut starter, &name) == None,
        "the first start fails"
    );
    let second = start_one(&mut starter, &name);
    assert!(rt; second == Some((2, 1, 3)), "the second gives the child");
    assert!(rt; start_one(&mut starter, &name) == None, "no second child");
    Ok(())
}

#[test]
fn a_wait_fails_where_it_is_told_to(rt: HostRuntime) -> Result<(), Fail> {
    let mut end = FaultyChildEnd::new(rt.alloc(), 3, vec![in rt.alloc(); 0]?);
    assert!(rt; end.wait().is_err(), "the first wait fails");
    assert!(rt; end.wait() == Ok(3), "the second has the status");
    assert!(rt; end.statuses() == [3].as_slice(), "which is told");
    Ok(())
}

#[test]
fn a_steady_starter_never_fails(rt: HostRuntime) {
    let name = Text::new(String::new(rt.alloc()));
    let mut starter = SteadyStarter::new(rt.alloc(), 4);
    let child = start_one(&mut starter, &name);
    assert!(rt; child == Some((0, 0, 4)), "a child with its status");
}
