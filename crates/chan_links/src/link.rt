//! A link over WebSocket as its three objects.

use crate::line::Line;
use crate::ws_dialer::WsDialer;
use crate::ws_in::WsIn;
use crate::ws_out::WsOut;
use chan_io::{Link, NoMemory};
use chan_pipes::Stop;
use std::alloc::Global;
use std::random::RandomSource;
use std::sync::Arc;
use tungstenite::RandomKeys;

/// A link that dials.
pub type WsLink<'a, R> = Link<WsDialer<R>, WsIn<R, RandomKeys<R>>, WsOut<'a, R, RandomKeys<R>>>;

/// A link without a connection. Its three objects share the current one, and shutting it ends the session.
pub fn ws_link<'a, R: RandomSource + Drop + Copy>(
    rt: R,
    alloc: Global,
    session: &'a Stop,
) -> Result<WsLink<'a, R>, NoMemory> {
    let line = Arc::new(alloc, Line::new())?;
    let dialer = WsDialer::new(rt, alloc, Arc::try_clone(&line)?);
    let input = WsIn::new(rt, alloc, Arc::try_clone(&line)?);
    let output = WsOut::new(rt, alloc, line, Some(session));
    Ok(Link {
        dialer,
        input,
        output,
    })
}
