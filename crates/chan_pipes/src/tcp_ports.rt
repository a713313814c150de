//! The TCP ports of this machine.

ghost use Rattle.std.specs.Prelude.{None, ◌≡◌, ◌≤◌, IfSome};
ghost use Rattle.chan_io.specs.Faults.{Rises};

use crate::polled_sink::PolledSink;
use crate::polled_source::PolledSource;
use crate::stop::{Stop, is_ready};
use chan_io::Failed;
use chan_ports::Ports;
use libc::net::POLLIN;
use std::io::ErrorKind;
use std::net::{Net, SocketAddr, TcpListener, TcpStream};
use std::time::{Clock, Duration};
use std::{io, thread};

/// How long an accept waits, in milliseconds.
const ACCEPT_MILLIS: i32 = 100;

/// The error numbers of Linux where too many descriptors are open: ENFILE, EMFILE.
const TOO_MANY: [i32; 2] = [23, 24];

/// The receiving half of a TCP connection.
pub type TcpIn<'a> = PolledSource<'a, TcpStream>;

/// The sending half of a TCP connection.
pub type TcpOut<'a> = PolledSink<'a, TcpStream>;

/// The TCP ports of 127.0.0.1. They tell nothing.
#[derive(Drop)]
pub struct TcpPorts<'a, R> {
    rt: R,
    stop: &'a Stop,
    // None until it listens.
    listener: Option<TcpListener>,
    faults: u64,
}

impl<'a, R> TcpPorts<'a, R> {
    /// Ports whose connections end with the session.
    pub fn new(rt: R, stop: &'a Stop) -> TcpPorts<'a, R> {
        TcpPorts {
            rt,
            stop,
            listener: None,
            faults: 0,
        }
    }

    /// Counts a call that failed.
    fn fail(&mut self) -> Failed
        ensures rises { Rises self.old.faults self.new.faults }
        ensures counted { self.old.faults ≤ self.new.faults }
    {
        self.faults = self.faults.saturating_add(1);
        Failed
    }
}

impl<'a, R: Net<Listener = TcpListener, Stream = TcpStream> + Clock> Ports for TcpPorts<'a, R> {
    type In = TcpIn<'a>;

    type Out = TcpOut<'a>;

    ghost usage = { λ _. None };

    ghost faults = { λ p. p.faults };

    fn listen(&mut self, port: u16) -> Result<u16, Failed> {
        match listen_at(&self.rt, port) {
            Ok((listener, port)) => {
                self.listener = Some(listener);
                Ok(port)
            }
            Err(_) => Err(self.fail()),
        }
    }

    fn accept(&mut self) -> Result<Option<(TcpIn<'a>, TcpOut<'a>)>, Failed> {
        if let Some(listener) = &self.listener {
            match accept_within(&self.rt, listener, ACCEPT_MILLIS) {
                Ok(None) => return Ok(None),
                Ok(Some(stream)) => {
                    if let Some(ends) = halves(stream, self.stop) {
                        return Ok(Some(ends));
                    }
                }
                Err(_) => {}
            }
        }
        Err(self.fail())
    }

    fn connect(&mut self, port: u16) -> Result<(TcpIn<'a>, TcpOut<'a>), Failed> {
        if let Ok(stream) = TcpStream::connect(&self.rt, loopback(port)) {
            if let Some(ends) = halves(stream, self.stop) {
                return Ok(ends);
            }
        }
        Err(self.fail())
    }
}

/// The port of this machine alone.
fn loopback(port: u16) -> SocketAddr {
    SocketAddr::from(([127, 0, 0, 1], port))
}

/// Listens at a port of this machine, at any free one for 0, and tells which. Accepts do not wait.
pub fn listen_at<R: Net<Listener = TcpListener, Stream = TcpStream>>(
    rt: &R,
    port: u16,
) -> io::Result<(TcpListener, u16)> {
    let listener = TcpListener::bind(rt, loopback(port))?;
    listener.set_nonblocking(true)?;
    let port = listener.local_addr()?.port();
    Ok((listener, port))
}

/// The connection that comes within so many milliseconds, if one comes. One that its peer gave up is none,
/// nor is one for which no descriptor is left: then others may be closed until the next accept.
pub fn accept_within<R: Clock>(
    rt: &R,
    listener: &TcpListener,
    millis: i32,
) -> io::Result<Option<TcpStream>> {
    if !is_ready(listener, POLLIN, millis) {
        return Ok(None);
    }
    match listener.accept() {
        Ok((stream, _)) => Ok(Some(stream)),
        Err(error) => none_for_now(rt, error),
    }
}

/// No connection, where an accept that ended so is to be made again; else the error.
fn none_for_now<R: Clock>(rt: &R, error: io::Error) -> io::Result<Option<TcpStream>> {
    match error.kind() {
        ErrorKind::WouldBlock | ErrorKind::Interrupted | ErrorKind::ConnectionAborted => Ok(None),
        _ => match error.raw_os_error() {
            Some(number) if TOO_MANY.contains(&number) => {
                thread::sleep(rt, Duration::from_millis(100));
                Ok(None)
            }
            _ => Err(error),
        },
    }
}

/// The two halves of a connection. Small writes go out at once (RFC 9293, 3.7.4).
fn halves<'a>(stream: TcpStream, stop: &'a Stop) -> Option<(TcpIn<'a>, TcpOut<'a>)>
    ensures { IfSome result (λ ends. (ends.0 ≡ 0) × (ends.1 ≡ 0)) }
{
    if stream.set_nodelay(true).is_err() {
        return None;
    }
    let Ok(other) = stream.try_clone() else {
        return None;
    };
    Some((
        PolledSource::new(stream, stop),
        PolledSink::new(other, stop),
    ))
}
