//! Connections that came and are being opened as WebSockets.

use crate::halves::{Both, OPENING_SECS, Reading, both, limits};
use libc::net::{POLLIN, poll};
use libc::types::pollfd;
use std::alloc::Global;
use std::collections::VecDeque;
use std::net::{TcpListener, TcpStream};
use std::os::fd::AsRawFd;
use std::time::Duration;
use tungstenite::handshake::server::{ServerHandshake, start};
use tungstenite::{HandshakeError, MidHandshake, NoCallback, NoMask};

/// How many connections are opened at once. A further one closes the oldest.
const MOST: usize = 64;

/// How many descriptors are waited for: one for each opening, and the listener's.
const PLACES: usize = 65;

/// The opening of a connection, as far as it came.
type Handshake = MidHandshake<ServerHandshake<Both, NoCallback>>;

/// A connection that is being opened, and since when.
#[derive(Drop)]
struct Opening {
    handshake: Handshake,
    since: Duration,
}

/// The connections that are being opened, the oldest first. None of them is waited for alone, so that a
/// silent one holds up nobody.
#[derive(Drop)]
pub(crate) struct Openings {
    alloc: Global,
    list: VecDeque<Opening>,
}

impl Openings {
    /// No connection came yet.
    pub(crate) fn new(alloc: Global) -> Openings {
        Openings {
            alloc,
            list: VecDeque::new(alloc),
        }
    }

    /// Begins the opening of a connection that came now. Where that can't be done it is closed.
    pub(crate) fn begin(&mut self, stream: TcpStream, now: Duration) {
        if stream.set_nonblocking(true).is_err() {
            return;
        }
        let Ok(both) = both(stream) else {
            return;
        };
        if self.list.len() >= MOST {
            let _ = self.list.pop_front();
        }
        let handshake = start(self.alloc, both, NoCallback, Some(limits()));
        let _ = self.list.push_back(Opening {
            handshake,
            since: now,
        });
    }

    /// Goes on with each opening once, and gives the first connection that is open. One that is no
    /// WebSocket, or that took too long, is closed.
    pub(crate) fn go_on(&mut self, now: Duration) -> Option<Reading<NoMask>> {
        for _ in 0..self.list.len() {
            let Opening { handshake, since } = self.list.pop_front()?;
            match go_on_once(handshake) {
                Went::Open(socket) => return Some(socket),
                Went::Later(handshake) => self.keep(handshake, since, now),
                Went::Over => {}
            }
        }
        None
    }

    /// Keeps an opening that goes on, unless it took too long.
    fn keep(&mut self, handshake: Handshake, since: Duration, now: Duration) {
        if now.saturating_sub(since) <= Duration::from_secs(OPENING_SECS) {
            let _ = self.list.push_back(Opening { handshake, since });
        }
    }

    /// Waits until a connection comes or one that is being opened has sent something, or for so many
    /// milliseconds.
    pub(crate) fn wait(&self, listener: &TcpListener, millis: i32) {
        let none = pollfd {
            fd: -1,
            events: POLLIN,
            revents: 0,
        };
        let mut asked = [none; PLACES];
        asked[0].fd = listener.as_raw_fd();
        for (place, opening) in asked[1..].iter_mut().zip(self.list.iter()) {
            place.fd = opening.handshake.get_ref().reader.as_raw_fd();
        }
        let _ = poll(&mut asked, millis);
    }
}

/// How an opening went on.
#[derive(Drop)]
enum Went {
    /// The connection is open.
    Open(Reading<NoMask>),
    /// The peer has not sent all of its request yet.
    Later(Handshake),
    /// The peer opens no WebSocket.
    Over,
}

/// Goes on with one opening.
fn go_on_once(handshake: Handshake) -> Went {
    match handshake.handshake() {
        Ok(socket) => Went::Open(socket),
        Err(HandshakeError::Interrupted(handshake)) => Went::Later(handshake),
        Err(HandshakeError::Failure(_error)) => Went::Over,
    }
}
