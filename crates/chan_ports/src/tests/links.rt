use crate::{FREE_PORT, FaultyLinkPorts, LinkPeer, LinkPorts, SteadyLinkPorts};
use chan_io::{Bytes, Got, IoFault, LinkIn, LinkOut, NoMemory};
use std::alloc::Global;
use std::test::Fail;

/// Ports with one link, to which a text comes, and of which the second call fails.
fn ports_with_a_text(alloc: Global) -> Result<FaultyLinkPorts, NoMemory> {
    let text = Got::Text(Bytes::new(vec![in alloc; 97]?));
    let peer = LinkPeer {
        sends: vec![in alloc; text]?,
        failing_receives: Vec::new(alloc),
        failing_sends: vec![in alloc; 0]?,
    };
    let peers = vec![in alloc; peer]?;
    Ok(FaultyLinkPorts::new(alloc, peers, vec![in alloc; 1]?))
}

/// Whether a link comes to which a text comes, and whether it can be sent to.
fn accept_one<P: LinkPorts>(ports: &mut P) -> Option<(bool, bool)> {
    let (mut input, mut output) = ports.accept().ok()??;
    let sent = output.send(b"x").is_ok();
    Some((matches!(input.receive(), Ok(Got::Text(_))), sent))
}

#[test]
fn a_link_comes_in_once(rt: HostRuntime) -> Result<(), Fail> {
    let mut ports = ports_with_a_text(rt.alloc())?;
    assert!(rt; ports.listen(0) == Ok(FREE_PORT), "a free port");
    let failed = ports.accept();
    assert!(rt;
        matches!(failed, Err(IoFault::Failed)),
        "the second call fails"
    );
    let came = accept_one(&mut ports);
    assert!(rt;
        came == Some((true, false)),
        "its message comes, its first send fails"
    );
    assert!(rt; accept_one(&mut ports) == None, "no second link");
    Ok(())
}

#[test]
fn steady_link_ports_never_fail(rt: HostRuntime) -> Result<(), Fail> {
    let alloc = rt.alloc();
    let mut ports = SteadyLinkPorts::new(alloc, vec![in alloc; Vec::new(alloc)]?);
    assert!(rt; ports.listen(80) == Ok(80), "the port");
    assert!(rt;
        accept_one(&mut ports) == Some((false, true)),
        "a link, gone at once"
    );
    assert!(rt; accept_one(&mut ports) == None, "no second one");
    Ok(())
}
