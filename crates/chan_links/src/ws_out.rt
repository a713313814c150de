//! The sending half of a link over WebSocket.

ghost use Rattle.std.specs.Prelude.{None, ◌≡◌, ◌≤◌};
ghost use Rattle.chan_io.specs.Faults.{IfFailed, UnlessFailed, Rises};
ghost use Rattle.chan_io.specs.declared.failed.IoFault.{IoFault};

use crate::halves::Writing;
use crate::line::Line;
use chan_io::{IoFault, LinkOut};
use chan_pipes::Stop;
use std::alloc::Global;
use std::marker::Model;
use std::net::Shutdown;
use std::sync::{Arc, Wait};
use tungstenite::{Error, MaskKeys, Message};

/// The sending half of a link. Where its link is that of a session, `shut` ends the session too.
/// Contracts see it as its count of faults.
#[derive(Drop)]
pub struct WsOut<'a, R, K> {
    rt: R,
    alloc: Global,
    line: Arc<Line<K>, Global>,
    session: Option<&'a Stop>,
    // The writing half of the connection with this number, while that goes on.
    half: Option<Writing<K>>,
    seen: u64,
    faults: u64,
}

impl<'a, R, K> Model for WsOut<'a, R, K> {
    ghost use Rattle.std.specs.Prelude.{ℕ};

    ghost Value = { ℕ };

    ghost view = { λ l. l.faults };
}

impl<'a, R, K> WsOut<'a, R, K> {
    /// The sending half of this line.
    pub(crate) fn new(
        rt: R,
        alloc: Global,
        line: Arc<Line<K>, Global>,
        session: Option<&'a Stop>,
    ) -> WsOut<'a, R, K>
        ensures { result ≡ 0 }
    {
        WsOut {
            rt,
            alloc,
            line,
            session,
            half: None,
            seen: 0,
            faults: 0,
        }
    }
}

impl<'a, R: Wait + Drop, K: MaskKeys + Drop> WsOut<'a, R, K> {
    /// Takes the writing half of a connection that is newer than the one before.
    fn renew(&mut self)
        ensures { self.new ≡ self.old }
    {
        let connections = self.line.connections();
        if connections != self.seen {
            self.half = self.line.take_writing(&self.rt);
            self.seen = connections;
        }
    }

    /// Counts a call that failed.
    fn fail(&mut self) -> IoFault
        ensures fault { result ≡ IoFault.Failed }
        ensures rises { Rises self.old self.new }
        ensures counted { self.old ≤ self.new }
    {
        self.faults = self.faults.saturating_add(1);
        IoFault::Failed
    }

    /// Sends a message over the current connection. A failure ends that, since a part of the message may be out.
    fn put(&mut self, message: Message) -> Result<(), IoFault>
        ensures steady { UnlessFailed result (self.new ≡ self.old) }
        ensures failed { IfFailed result (Rises self.old self.new) }
        ensures counted { self.old ≤ self.new }
    {
        self.renew();
        let sent = match &mut self.half {
            Some(half) => half.send(message),
            None => return Err(self.fail()),
        };
        match sent {
            Ok(()) => Ok(()),
            Err(Error::OutOfMemory) => Err(IoFault::NoMemory),
            Err(_) => {
                if let Some(half) = self.half.take() {
                    let _ = half.get_ref().shutdown(Shutdown::Both);
                }
                Err(self.fail())
            }
        }
    }
}

impl<'a, R: Wait + Drop, K: MaskKeys + Drop> LinkOut for WsOut<'a, R, K> {
    ghost departures = { λ _. None };

    ghost faults = { λ l. l };

    fn send(&mut self, message: &[u8]) -> Result<(), IoFault> {
        let message = Message::binary(self.alloc, message)?;
        self.put(message)
    }

    /// A text that is not UTF-8 is a failure (RFC 6455, 5.6).
    fn send_text(&mut self, text: &[u8]) -> Result<(), IoFault> {
        let Ok(text) = std::str::from_utf8(text) else {
            return Err(self.fail());
        };
        let message = Message::text(self.alloc, text)?;
        self.put(message)
    }

    /// The peer gets a Close frame behind what was sent before (RFC 6455, 7.1.2), and then the end of the bytes.
    fn shut(&mut self) {
        self.renew();
        if let Some(mut half) = self.half.take() {
            let _ = half.close(None);
            let _ = half.get_ref().shutdown(Shutdown::Write);
        }
        self.line.end(&self.rt);
        if let Some(session) = self.session {
            session.set();
        }
    }
}
