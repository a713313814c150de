use crate::{Connection, FREE_PORT, FaultyPorts, Peer, Ports, SteadyPorts};
use chan_io::{Sink, Source};
use std::alloc::{AllocError, Global};
use std::test::Fail;

/// Ports with one peer, which sends two bytes, and of which the calls with these numbers fail.
fn ports_with(alloc: Global, failing: &[u64]) -> Result<FaultyPorts, AllocError> {
    let peer = Peer {
        sends: vec![in alloc; 97, 98]?,
        failing_reads: Vec::new(alloc),
        failing_writes: Vec::new(alloc),
    };
    let peers = vec![in alloc; peer]?;
    Ok(FaultyPorts::new(alloc, peers, Vec::from_slice(alloc, failing)?))
}

/// How many bytes the next peer sends, where one comes that takes a byte.
fn accept_one<P: Ports>(ports: &mut P) -> Option<usize> {
    let (mut input, mut output) = ports.accept().ok()??;
    output.write(b"x").ok()?;
    let mut piece = [0u8; 4];
    input.read(&mut piece).ok()
}

#[test]
fn a_listen_fails_where_it_is_told_to(rt: HostRuntime) -> Result<(), Fail> {
    let mut ports = ports_with(rt.alloc(), &[1])?;
    assert!(rt; ports.listen(0) == Ok(FREE_PORT), "a free port");
    assert!(rt; ports.listen(80).is_err(), "the second call fails");
    assert!(rt; ports.listen(80) == Ok(80), "the third has its port");
    Ok(())
}

#[test]
fn a_peer_is_accepted_once(rt: HostRuntime) -> Result<(), Fail> {
    let mut ports = ports_with(rt.alloc(), &[])?;
    assert!(rt; accept_one(&mut ports) == Some(2), "the peer comes");
    assert!(rt; accept_one(&mut ports) == None, "no second one");
    assert!(rt; ports.connect(7).is_err(), "nor is one there");
    let made = [Connection::Accepted];
    assert!(rt; ports.connections() == made.as_slice(), "it is told");
    Ok(())
}

#[test]
fn a_peer_is_connected_to(rt: HostRuntime) -> Result<(), Fail> {
    let mut ports = ports_with(rt.alloc(), &[0])?;
    assert!(rt; ports.connect(7).is_err(), "the first call fails");
    assert!(rt; ports.connect(7).is_ok(), "the second does not");
    let made = [Connection::Connected(7)];
    assert!(rt; ports.connections() == made.as_slice(), "it is told");
    Ok(())
}

#[test]
fn steady_ports_never_fail(rt: HostRuntime) -> Result<(), Fail> {
    let alloc = rt.alloc();
    let mut ports = SteadyPorts::new(alloc, vec![in alloc; vec![in alloc; 97]?]?);
    assert!(rt; ports.listen(80) == Ok(80), "the port");
    assert!(rt; accept_one(&mut ports) == Some(1), "a peer");
    assert!(rt; ports.connect(7).is_ok(), "a connection");
    Ok(())
}
