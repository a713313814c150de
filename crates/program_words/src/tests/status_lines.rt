//! The lines of the statuses.

use crate::{AgentStatus, PluginStatus, RelayStatus};
use handshake::Why;
use json_bodies::BodyFault;
use std::test::Fail;

#[test]
fn each_status_of_plugin_has_its_line(rt: HostRuntime) -> Result<(), Fail> {
    let cases = [
        (PluginStatus::Ok, 0, "plugin: status 0 Ok"),
        (PluginStatus::NoMemory, 1, "plugin: status 1 NoMemory"),
        (PluginStatus::Usage, 2, "plugin: status 2 Usage"),
        (PluginStatus::Refused, 3, "plugin: status 3 Refused"),
        (PluginStatus::ReadFault, 4, "plugin: status 4 ReadFault"),
        (PluginStatus::WriteFault, 5, "plugin: status 5 WriteFault"),
        (PluginStatus::LinkLost, 7, "plugin: status 7 LinkLost"),
        (
            PluginStatus::GaveUp(9_223_372_036_854_775_806),
            8,
            "plugin: status 8 GaveUp 9223372036854775806",
        ),
        (
            PluginStatus::Handshake(Why::Order(12)),
            9,
            "plugin: status 9 Handshake 1",
        ),
        (
            PluginStatus::Handshake(Why::NoSession),
            9,
            "plugin: status 9 Handshake 3",
        ),
        (PluginStatus::NoThread, 10, "plugin: status 10 NoThread"),
        (PluginStatus::PortFault, 12, "plugin: status 12 PortFault"),
        (
            PluginStatus::EntropyFault,
            15,
            "plugin: status 15 EntropyFault",
        ),
        (
            PluginStatus::NoAgreement,
            17,
            "plugin: status 17 NoAgreement",
        ),
        (PluginStatus::Frames(8), 19, "plugin: status 19 Frames 8"),
    ];
    for (status, number, line) in cases {
        let told = format!(in rt.alloc(); "{status}")?;
        assert!(rt;
            status.number() == number && told.as_str() == line,
            "{told}"
        );
    }
    Ok(())
}

#[test]
fn each_status_of_agent_has_its_line(rt: HostRuntime) -> Result<(), Fail> {
    let cases = [
        (AgentStatus::Ok, 0, "agent: status 0 Ok"),
        (AgentStatus::NoMemory, 1, "agent: status 1 NoMemory"),
        (AgentStatus::Usage, 2, "agent: status 2 Usage"),
        (AgentStatus::Refused, 3, "agent: status 3 Refused"),
        (AgentStatus::LinkLost, 7, "agent: status 7 LinkLost"),
        (AgentStatus::GaveUp(0), 8, "agent: status 8 GaveUp 0"),
        (
            AgentStatus::Handshake(Why::Body(BodyFault::NotJson)),
            9,
            "agent: status 9 Handshake 2",
        ),
        (
            AgentStatus::Handshake(Why::Failed(3)),
            9,
            "agent: status 9 Handshake 4",
        ),
        (AgentStatus::NoThread, 10, "agent: status 10 NoThread"),
        (AgentStatus::NoChild, 11, "agent: status 11 NoChild"),
        (AgentStatus::PortFault, 12, "agent: status 12 PortFault"),
        (AgentStatus::ChildFault, 13, "agent: status 13 ChildFault"),
        (
            AgentStatus::EntropyFault,
            15,
            "agent: status 15 EntropyFault",
        ),
        (AgentStatus::NoAgreement, 17, "agent: status 17 NoAgreement"),
        (AgentStatus::Frames(0), 19, "agent: status 19 Frames 0"),
    ];
    for (status, number, line) in cases {
        let told = format!(in rt.alloc(); "{status}")?;
        assert!(rt;
            status.number() == number && told.as_str() == line,
            "{told}"
        );
    }
    Ok(())
}

#[test]
fn each_status_of_relay_has_its_line(rt: HostRuntime) -> Result<(), Fail> {
    let cases = [
        (RelayStatus::Ok, 0, "relay: status 0 Ok"),
        (RelayStatus::NoMemory, 1, "relay: status 1 NoMemory"),
        (RelayStatus::Usage, 2, "relay: status 2 Usage"),
        (RelayStatus::WriteFault, 5, "relay: status 5 WriteFault"),
        (RelayStatus::NoThread, 10, "relay: status 10 NoThread"),
        (RelayStatus::PortFault, 12, "relay: status 12 PortFault"),
        (RelayStatus::StoreFault, 14, "relay: status 14 StoreFault"),
        (
            RelayStatus::EntropyFault,
            15,
            "relay: status 15 EntropyFault",
        ),
    ];
    for (status, number, line) in cases {
        let told = format!(in rt.alloc(); "{status}")?;
        assert!(rt;
            status.number() == number && told.as_str() == line,
            "{told}"
        );
    }
    Ok(())
}
