//! Ports at which links over WebSocket come in.

ghost use Rattle.std.specs.Prelude.{None, ◌≡◌, ◌≤◌, IfOk, IfSome};
ghost use Rattle.chan_io.specs.Faults.{Rises};

use crate::halves::{Reading, set_patience, split};
use crate::line::Line;
use crate::opening::Openings;
use crate::ws_in::WsIn;
use crate::ws_out::WsOut;
use chan_io::{Failed, IoFault, NoMemory};
use chan_pipes::{accept_within, listen_at};
use chan_ports::LinkPorts;
use std::alloc::Global;
use std::io;
use std::net::{Net, TcpListener, TcpStream};
use std::sync::{Arc, Wait};
use std::time::{Clock, Duration};
use tungstenite::{NoMask, Role};

/// How long an accept waits, in milliseconds.
const ACCEPT_MILLIS: u64 = 100;

/// How long it waits for one thing, in milliseconds.
const LOOK_MILLIS: i32 = 20;

/// The two halves of a link that came in.
type Ends<'a, R> = (WsIn<R, NoMask>, WsOut<'a, R, NoMask>);

/// The ports of 127.0.0.1 at which links come in (RFC 6455, 4.2). They tell nothing. Shutting a link ends
/// that link alone.
#[derive(Drop)]
pub struct WsPorts<R> {
    rt: R,
    alloc: Global,
    // None until it listens.
    listener: Option<TcpListener>,
    openings: Openings,
    faults: u64,
}

impl<R> WsPorts<R> {
    /// Ports that do not listen yet.
    pub fn new(rt: R, alloc: Global) -> WsPorts<R> {
        WsPorts {
            rt,
            alloc,
            listener: None,
            openings: Openings::new(alloc),
            faults: 0,
        }
    }

    /// Counts a call that failed.
    fn fail(&mut self) -> Failed
        ensures rises { Rises self.old.faults self.new.faults }
        ensures counted { self.old.faults ≤ self.new.faults }
    {
        self.faults = self.faults.saturating_add(1);
        Failed
    }
}

impl<R: Net<Listener = TcpListener, Stream = TcpStream> + Wait + Clock + Copy + Send> LinkPorts
    for WsPorts<R> {
    type In = WsIn<R, NoMask>;

    type Out = WsOut<'static, R, NoMask>;

    ghost usage = { λ _. None };

    ghost faults = { λ p. p.faults };

    fn listen(&mut self, port: u16) -> Result<u16, Failed> {
        match listen_at(&self.rt, port) {
            Ok((listener, port)) => {
                self.listener = Some(listener);
                Ok(port)
            }
            Err(_) => Err(self.fail()),
        }
    }

    fn accept(&mut self) -> Result<Option<Ends<'static, R>>, IoFault> {
        if let Some(listener) = &self.listener {
            match next_open(&self.rt, listener, &mut self.openings) {
                Ok(None) => return Ok(None),
                Ok(Some(socket)) => return Ok(ends(self.rt, self.alloc, socket)?),
                Err(_) => {}
            }
        }
        Err(IoFault::from(self.fail()))
    }
}

/// The next connection that is open, if one is within the time of an accept.
fn next_open<R: Clock>(
    rt: &R,
    listener: &TcpListener,
    openings: &mut Openings,
) -> io::Result<Option<Reading<NoMask>>> {
    let begun = rt.monotonic()?;
    for _ in 0..u64::MAX {
        let now = rt.monotonic()?;
        if let Some(stream) = accept_within(rt, listener, 0)? {
            openings.begin(stream, now);
        }
        if let Some(socket) = openings.go_on(now) {
            return Ok(Some(socket));
        }
        if now.saturating_sub(begun) >= Duration::from_millis(ACCEPT_MILLIS) {
            break;
        }
        openings.wait(listener, LOOK_MILLIS);
    }
    Ok(None)
}

/// The two halves of an open connection as a link of its own. It is closed where it can't be one.
fn ends<R: Wait + Copy>(
    rt: R,
    alloc: Global,
    socket: Reading<NoMask>,
) -> Result<Option<Ends<'static, R>>, NoMemory>
    ensures { IfOk result (λ came. IfSome came (λ ends. (ends.0 ≡ 0) × (ends.1 ≡ 0))) }
{
    if set_patience(&socket.get_ref().reader).is_err() {
        return Ok(None);
    }
    let Some((reading, writing)) = split(alloc, socket, NoMask, Role::Server) else {
        return Ok(None);
    };
    let line = Arc::new(alloc, Line::new())?;
    line.put(&rt, reading, writing);
    let input = WsIn::new(rt, alloc, Arc::try_clone(&line)?);
    Ok(Some((input, WsOut::new(rt, alloc, line, None))))
}
