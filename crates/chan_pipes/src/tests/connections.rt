use crate::{PolledSink, PolledSource, Stop, TcpIn, TcpPorts};
use chan_io::{Sink, Source};
use chan_ports::Ports;
use std::test::Fail;
use std::thread;
use std::thread::join;
use std::time::{Clock, Duration};

#[test]
fn a_connection_carries_bytes_both_ways(rt: HostRuntime) -> Result<(), Fail> {
    let stop = Stop::new();
    let mut ports = TcpPorts::new(&rt, &stop);
    let port = ports.listen(0).or(Err("listen"))?;
    assert!(rt; matches!(ports.accept(), Ok(None)), "nobody came");
    let (mut near_in, mut near_out) = ports.connect(port).or(Err("connect"))?;
    let Ok(Some((mut far_in, mut far_out))) = ports.accept() else {
        return Err(Fail::from("accept"));
    };
    let mut piece = [0u8; 4];
    assert!(rt; near_out.write(b"ab").is_ok(), "two bytes go out");
    assert!(rt; near_out.finish().is_ok(), "and then the end");
    assert!(rt; far_in.read(&mut piece) == Ok(2), "they come");
    assert!(rt; &piece[..2] == b"ab".as_slice(), "as they were");
    assert!(rt; far_in.read(&mut piece) == Ok(0), "and then the end");
    assert!(rt; far_out.write(b"c").is_ok(), "the other way goes on");
    assert!(rt; near_in.read(&mut piece) == Ok(1), "a byte comes back");
    assert!(rt; near_out.write(b"d").is_err(), "nothing after the end");
    Ok(())
}

#[test]
fn a_port_where_nobody_listens_is_a_failure(rt: HostRuntime) -> Result<(), Fail> {
    let stop = Stop::new();
    let mut gone = TcpPorts::new(&rt, &stop);
    let port = gone.listen(0).or(Err("listen"))?;
    drop(gone);
    let mut ports = TcpPorts::new(&rt, &stop);
    assert!(rt; ports.connect(port).is_err(), "no connection");
    assert!(rt; ports.accept().is_err(), "it does not listen");
    let taken = ports.listen(0).or(Err("listen"))?;
    let mut second = TcpPorts::new(&rt, &stop);
    assert!(rt; second.listen(taken).is_err(), "the port is taken");
    Ok(())
}

/// What a read is answered.
fn read_once(input: &mut TcpIn<'_>) -> Option<usize> {
    let mut piece = [0u8; 4];
    input.read(&mut piece).ok()
}

/// Ends the session shortly.
fn stop_soon<R: Clock>(rt: &R, stop: &Stop) {
    thread::sleep(rt, Duration::from_millis(20));
    stop.set();
}

#[test]
fn a_read_that_waits_ends_with_the_session(rt: HostRuntime) -> Result<(), Fail> {
    let stop = Stop::new();
    let mut ports = TcpPorts::new(&rt, &stop);
    let port = ports.listen(0).or(Err("listen"))?;
    let (mut input, _output) = ports.connect(port).or(Err("connect"))?;
    let (read, ()) = join(&rt, || read_once(&mut input), || stop_soon(&rt, &stop));
    assert!(rt; read == Some(0), "it is at the end");
    let mut standard = PolledSource::new(rt.stdin(), &stop);
    let mut piece = [0u8; 4];
    assert!(rt; standard.read(&mut piece) == Ok(0), "so is standard input");
    Ok(())
}

#[test]
fn a_write_that_nobody_takes_ends_with_the_session(rt: HostRuntime) -> Result<(), Fail> {
    let stop = Stop::new();
    let mut ports = TcpPorts::new(&rt, &stop);
    let port = ports.listen(0).or(Err("listen"))?;
    let (_input, mut output) = ports.connect(port).or(Err("connect"))?;
    stop.set();
    let piece = [7u8; 4096];
    let mut taken = 0u32;
    for _ in 0..20_000 {
        if output.write(&piece).is_err() {
            break;
        }
        taken = taken.saturating_add(1);
    }
    assert!(rt; taken > 0, "what there is room for goes out");
    assert!(rt; taken < 20_000, "and then it fails");
    Ok(())
}

#[test]
fn standard_output_takes_a_line(rt: HostRuntime) -> Result<(), Fail> {
    let stop = Stop::new();
    let mut output = PolledSink::new(rt.stdout(), &stop);
    assert!(rt; output.write(b"written by a test\n").is_ok(), "a line");
    assert!(rt; output.finish().is_ok(), "and its end");
    assert!(rt; output.write(b"x").is_err(), "nothing after the end");
    Ok(())
}
