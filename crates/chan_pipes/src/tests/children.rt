use crate::{ProcessStarter, Stop};
use chan_io::{Sink, Source, Text};
use chan_ports::{Starter, Waited};
use std::test::Fail;

#[test]
fn a_child_gives_back_what_it_takes(rt: HostRuntime) -> Result<(), Fail> {
    let stop = Stop::new();
    let mut starter = ProcessStarter::new(&rt, rt.alloc(), &stop);
    let cat = Text::new(String::from_str(rt.alloc(), "/bin/cat")?);
    let mut child = starter.start(&cat).or(Err("start"))?;
    let mut piece = [0u8; 4];
    assert!(rt; child.stdin.write(b"ab").is_ok(), "it takes two bytes");
    assert!(rt;
        child.stdout.read(&mut piece) == Ok(2),
        "it gives them back"
    );
    assert!(rt; &piece[..2] == b"ab".as_slice(), "as they were");
    assert!(rt; child.stdin.finish().is_ok(), "its input ends");
    assert!(rt;
        child.stdout.read(&mut piece) == Ok(0),
        "so does what it writes"
    );
    assert!(rt;
        child.stderr.read(&mut piece) == Ok(0),
        "it reports nothing"
    );
    assert!(rt; child.end.wait() == Ok(0), "it ends");
    Ok(())
}

#[test]
fn a_status_is_that_of_the_exit_or_the_signal(rt: HostRuntime) -> Result<(), Fail> {
    let stop = Stop::new();
    let mut starter = ProcessStarter::new(&rt, rt.alloc(), &stop);
    let shell = Text::new(String::from_str(rt.alloc(), "/bin/sh")?);
    let cases = [("exit 3\n", 3), ("kill -9 $$\n", 137)];
    for (script, status) in cases {
        let mut child = starter.start(&shell).or(Err("start"))?;
        assert!(rt; child.stdin.write(script.as_bytes()).is_ok(), "{script}");
        assert!(rt; child.end.wait() == Ok(status), "the status of {script}");
        assert!(rt; child.end.wait() == Ok(status), "and once more");
    }
    Ok(())
}

#[test]
fn a_child_writes_and_reports_apart(rt: HostRuntime) -> Result<(), Fail> {
    let stop = Stop::new();
    let mut starter = ProcessStarter::new(&rt, rt.alloc(), &stop);
    let shell = Text::new(String::from_str(rt.alloc(), "/bin/sh")?);
    let mut child = starter.start(&shell).or(Err("start"))?;
    let mut piece = [0u8; 4];
    assert!(rt;
        child.stdin.write(b"echo a; echo b >&2\n").is_ok(),
        "a script"
    );
    assert!(rt; child.stdin.finish().is_ok(), "and its end");
    assert!(rt; child.stdout.read(&mut piece) == Ok(2), "it writes");
    assert!(rt; &piece[..2] == b"a\n".as_slice(), "one line");
    assert!(rt; child.stderr.read(&mut piece) == Ok(2), "it reports");
    assert!(rt; &piece[..2] == b"b\n".as_slice(), "another");
    assert!(rt; child.end.wait() == Ok(0), "it ends");
    Ok(())
}

#[test]
fn a_child_that_is_gone_takes_nothing(rt: HostRuntime) -> Result<(), Fail> {
    let stop = Stop::new();
    let mut starter = ProcessStarter::new(&rt, rt.alloc(), &stop);
    let nothing = Text::new(String::from_str(rt.alloc(), "/bin/true")?);
    let mut child = starter.start(&nothing).or(Err("start"))?;
    assert!(rt; child.end.wait() == Ok(0), "it ends");
    let written = child.stdin.write(b"x");
    assert!(rt; written.is_err(), "a failure, and no signal that ends us");
    Ok(())
}

#[test]
fn a_child_ends_with_the_session(rt: HostRuntime) -> Result<(), Fail> {
    let stop = Stop::new();
    let mut starter = ProcessStarter::new(&rt, rt.alloc(), &stop);
    let cat = Text::new(String::from_str(rt.alloc(), "/bin/cat")?);
    let mut child = starter.start(&cat).or(Err("start"))?;
    stop.set();
    assert!(rt;
        child.end.wait() == Ok(137),
        "it was killed: 128 and SIGKILL"
    );
    Ok(())
}

#[test]
fn a_program_that_is_not_there_is_not_started(rt: HostRuntime) -> Result<(), Fail> {
    let stop = Stop::new();
    let mut starter = ProcessStarter::new(&rt, rt.alloc(), &stop);
    let none = Text::new(String::from_str(rt.alloc(), "/nowhere/to/be/found")?);
    assert!(rt; starter.start(&none).is_err(), "no such program");
    Ok(())
}
