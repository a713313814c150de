//! What makes the connections of a link over WebSocket.

ghost use Rattle.std.specs.Prelude.{None};

use crate::halves::{OPENING_SECS, Reading, both, limits, set_patience, split};
use crate::line::Line;
use chan_io::{Bytes, Dialer, IoFault, Text};
use std::alloc::Global;
use std::net::{Net, TcpStream};
use std::random::RandomSource;
use std::sync::{Arc, Wait};
use std::time::Duration;
use tungstenite::handshake::client::{request_of, start};
use tungstenite::{Error, Message, RandomKeys, Role};

/// What connects a link as a client of the relay.
#[derive(Drop)]
pub struct WsDialer<R> {
    rt: R,
    alloc: Global,
    line: Arc<Line<RandomKeys<R>>, Global>,
    faults: u64,
}

impl<R> WsDialer<R> {
    /// A dialer for this line that made no dial yet.
    pub(crate) fn new(rt: R, alloc: Global, line: Arc<Line<RandomKeys<R>>, Global>) -> WsDialer<R> {
        WsDialer {
            rt,
            alloc,
            line,
            faults: 0,
        }
    }
}

impl<R: Net<Stream = TcpStream> + Wait + RandomSource + Drop + Copy> WsDialer<R> {
    /// Makes the connection that becomes the current one, and tells the reply.
    fn connect(&self, address: &str, opening: &[u8]) -> Result<Bytes, IoFault> {
        if self.line.is_over() {
            return Err(IoFault::Failed);
        }
        let mut socket = opened(&self.rt, self.alloc, address)?;
        let reply = asked(self.alloc, &mut socket, opening)?;
        set_patience(&socket.get_ref().reader).or(Err(IoFault::Failed))?;
        let keys = RandomKeys::new(self.rt);
        let Some((reading, writing)) = split(self.alloc, socket, keys, Role::Client) else {
            return Err(IoFault::Failed);
        };
        self.line.put(&self.rt, reading, writing);
        Ok(reply)
    }
}

impl<R: Net<Stream = TcpStream> + Wait + RandomSource + Drop + Copy> Dialer for WsDialer<R> {
    ghost dials = { λ _. None };

    ghost faults = { λ d. d.faults };

    fn dial(&mut self, address: &Text, opening: &[u8]) -> Result<Bytes, IoFault> {
        let reply = self.connect(address.as_str(), opening);
        if let Err(IoFault::Failed) = reply {
            self.faults = self.faults.saturating_add(1);
        }
        reply
    }
}

/// Connects to HOST:PORT and opens a WebSocket there (RFC 6455, 4.1).
fn opened<R: Net<Stream = TcpStream> + RandomSource + Drop + Copy>(
    rt: &R,
    alloc: Global,
    address: &str,
) -> Result<Reading<RandomKeys<R>>, IoFault> {
    let stream = TcpStream::connect(rt, address).or(Err(IoFault::Failed))?;
    let time = Duration::from_secs(OPENING_SECS);
    stream
        .set_read_timeout(Some(time))
        .or(Err(IoFault::Failed))?;
    stream
        .set_write_timeout(Some(time))
        .or(Err(IoFault::Failed))?;
    let both = both(stream).or(Err(IoFault::Failed))?;
    let mut nonce = [0u8; 16];
    rt.fill_bytes(&mut nonce).or(Err(IoFault::Failed))?;
    let uri = format!(in alloc; "ws://{address}/")?;
    let request = request_of(alloc, &uri).map_err(|error| fault_of(&error))?;
    match start(
        alloc,
        nonce,
        RandomKeys::new(*rt),
        request,
        both,
        Some(limits()),
    ) {
        Ok(opening) => match opening.handshake() {
            Ok((socket, _response)) => Ok(socket),
            Err(_) => Err(IoFault::Failed),
        },
        Err(error) => Err(fault_of(&error)),
    }
}

/// Sends the opening as a text, and answers the text that comes back.
fn asked<R: RandomSource + Drop>(
    alloc: Global,
    socket: &mut Reading<RandomKeys<R>>,
    opening: &[u8],
) -> Result<Bytes, IoFault> {
    let text = std::str::from_utf8(opening).or(Err(IoFault::Failed))?;
    let message = Message::text(alloc, text)?;
    socket.send(message).map_err(|error| fault_of(&error))?;
    match socket.read() {
        Ok(Message::Text(text)) => {
            Ok(Bytes::new(Vec::from_slice(alloc, text.as_str().as_bytes())?))
        }
        Ok(_) => Err(IoFault::Failed),
        Err(error) => Err(fault_of(&error)),
    }
}

/// What an error of a WebSocket is told as.
fn fault_of(error: &Error) -> IoFault {
    match error {
        Error::OutOfMemory => IoFault::NoMemory,
        _ => IoFault::Failed,
    }
}
