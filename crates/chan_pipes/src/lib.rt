//! Pipes, TCP connections and children of the system: thin adapters behind the traits of `chan_io` and
//! `chan_ports` that decide nothing.
//!
//! They tell nothing of content. A read of them waits no longer than its session lasts.
#![tactic(auto)]

mod polled_sink;
mod polled_source;
mod process_end;
mod process_starter;
mod stop;
mod tcp_ports;
#[cfg(test)]
mod tests;
mod write_end;

pub use polled_sink::PolledSink;
pub use polled_source::PolledSource;
pub use process_end::ProcessEnd;
pub use process_starter::{ProcessChild, ProcessStarter};
pub use stop::Stop;
pub use tcp_ports::{TcpIn, TcpOut, TcpPorts, accept_within, listen_at};
pub use write_end::WriteEnd;
