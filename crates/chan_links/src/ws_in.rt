//! The receiving half of a link over WebSocket.

ghost use Rattle.std.specs.Prelude.{None, ◌≡◌};

use crate::halves::Reading;
use crate::line::Line;
use chan_io::{Bytes, Got, IoFault, LinkIn};
use std::alloc::{AllocError, Global};
use std::io::ErrorKind;
use std::marker::Model;
use std::net::Shutdown;
use std::sync::{Arc, Wait};
use tungstenite::{Error, MaskKeys, Message};

/// The receiving half of a link. It answers none of its peer's pings. A link that is over is gone.
/// Contracts see it as its count of faults.
#[derive(Drop)]
pub struct WsIn<R, K> {
    rt: R,
    alloc: Global,
    line: Arc<Line<K>, Global>,
    // The reading half of the current connection, while that goes on.
    half: Option<Reading<K>>,
    faults: u64,
}

impl<R, K> Model for WsIn<R, K> {
    ghost use Rattle.std.specs.Prelude.{ℕ};

    ghost Value = { ℕ };

    ghost view = { λ l. l.faults };
}

impl<R, K> WsIn<R, K> {
    /// The receiving half of this line.
    pub(crate) fn new(rt: R, alloc: Global, line: Arc<Line<K>, Global>) -> WsIn<R, K>
        ensures { result ≡ 0 }
    {
        WsIn {
            rt,
            alloc,
            line,
            half: None,
            faults: 0,
        }
    }
}

impl<R: Wait + Drop, K: MaskKeys + Drop> LinkIn for WsIn<R, K> {
    ghost arrivals = { λ _. None };

    ghost faults = { λ l. l };

    fn receive(&mut self) -> Result<Got, IoFault> {
        if self.half.is_none() {
            self.half = self.line.take_reading(&self.rt);
        }
        let Some(half) = &mut self.half else {
            return Ok(Got::Gone);
        };
        let got = next_of(self.alloc, half, &self.line);
        if let Err(IoFault::Failed) = got {
            self.faults = self.faults.saturating_add(1);
        }
        if let Ok(Got::Gone) | Err(IoFault::Failed) = got {
            self.half = None;
        }
        got
    }
}

/// The next message of a connection. The connection is ended where it is gone or fails.
fn next_of<K: MaskKeys + Drop>(
    alloc: Global,
    half: &mut Reading<K>,
    line: &Line<K>,
) -> Result<Got, IoFault> {
    for _ in 0..u64::MAX {
        if line.is_over() {
            break;
        }
        match half.read() {
            Ok(message) => {
                if let Some(got) = got_of(alloc, &message)? {
                    return Ok(got);
                }
            }
            Err(error) => match lull_of(&error) {
                Lull::Short => {}
                Lull::Gone => break,
                Lull::NoMemory => return Err(IoFault::NoMemory),
                Lull::Failed => {
                    end(half);
                    return Err(IoFault::Failed);
                }
            },
        }
    }
    end(half);
    Ok(Got::Gone)
}

/// Ends a connection, so that its writing half ends too.
fn end<K: MaskKeys + Drop>(half: &mut Reading<K>) {
    let _ = half.get_ref().reader.shutdown(Shutdown::Both);
}

/// What a message is told as. Pings, pongs and the peer's Close are not told.
fn got_of(alloc: Global, message: &Message) -> Result<Option<Got>, AllocError> {
    match message {
        Message::Binary(bytes) => Ok(Some(Got::Binary(copied(alloc, bytes.as_slice())?))),
        Message::Text(text) => Ok(Some(Got::Text(copied(alloc, text.as_str().as_bytes())?))),
        _ => Ok(None),
    }
}

/// The bytes of a message.
fn copied(alloc: Global, bytes: &[u8]) -> Result<Bytes, AllocError> {
    Ok(Bytes::new(Vec::from_slice(alloc, bytes)?))
}

/// Why a read gave no message.
#[derive(Clone, Copy, Debug)]
enum Lull {
    /// No byte came for a while, or a signal did.
    Short,
    /// The connection was closed.
    Gone,
    /// There was no memory.
    NoMemory,
    /// The connection failed.
    Failed,
}

/// Why a read gave no message, by its error.
fn lull_of(error: &Error) -> Lull {
    match error {
        Error::Io(error) => match error.kind() {
            ErrorKind::WouldBlock | ErrorKind::Interrupted => Lull::Short,
            _ => Lull::Failed,
        },
        Error::ConnectionClosed | Error::AlreadyClosed => Lull::Gone,
        Error::OutOfMemory => Lull::NoMemory,
        _ => Lull::Failed,
    }
}
