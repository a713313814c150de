//! Ports, links that come in, and children, as traits with fakes in memory.
//!
//! As in `chan_io`, ghost members say what an object tells of what was done with it, and how many of
//! its calls failed. What an object hands out is new: nothing was done with it yet.
#![tactic(auto)]

mod child;
mod connection;
mod failing;
mod faulty_child_end;
mod faulty_link_ports;
mod faulty_ports;
mod faulty_starter;
mod link_peer;
mod link_ports;
mod messages;
mod peer;
mod port_log;
mod ports;
mod program;
mod starter;
mod steady_child_end;
mod steady_link_ports;
mod steady_ports;
mod steady_starter;
#[cfg(test)]
mod tests;
mod waited;

pub use child::{Child, Local};
pub use connection::Connection;
pub use faulty_child_end::FaultyChildEnd;
pub use faulty_link_ports::FaultyLinkPorts;
pub use faulty_ports::FaultyPorts;
pub use faulty_starter::FaultyStarter;
pub use link_peer::LinkPeer;
pub use link_ports::LinkPorts;
pub use peer::Peer;
pub use port_log::FREE_PORT;
pub use ports::Ports;
pub use program::Program;
pub use starter::Starter;
pub use steady_child_end::SteadyChildEnd;
pub use steady_link_ports::SteadyLinkPorts;
pub use steady_ports::SteadyPorts;
pub use steady_starter::SteadyStarter;
pub use waited::Waited;
