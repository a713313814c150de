//! Links over WebSocket (RFC 6455) on loopback, both ways: thin adapters behind the traits of `chan_io` and
//! `chan_ports` that decide nothing.
//!
//! They tell nothing of content.
#![tactic(auto)]

mod halves;
mod line;
mod link;
mod opening;
mod ws_dialer;
mod ws_in;
mod ws_out;
mod ws_ports;

pub use link::{WsLink, ws_link};
pub use ws_dialer::WsDialer;
pub use ws_in::WsIn;
pub use ws_out::WsOut;
pub use ws_ports::WsPorts;
