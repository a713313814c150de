//! The two halves of a WebSocket connection.

use std::alloc::Global;
use std::io;
use std::io::Write;
use std::net::TcpStream;
use std::time::Duration;
use tungstenite::{Duplex, MaskKeys, Role, WebSocket, WebSocketConfig};

/// The largest message and frame that are read, in bytes. A message too long for the channel is still read
/// and passed over, since a message above this limit ends its connection.
const LARGEST: usize = 1 << 20;

/// How long an opening may take, in seconds.
pub(crate) const OPENING_SECS: u64 = 5;

/// How long a read waits until it looks whether the link is over, in milliseconds.
const READ_MILLIS: u64 = 500;

/// How long a write may find no room, in seconds.
const WRITE_SECS: u64 = 30;

/// Where the reading half would write. It writes until its stream is taken, at the end of the opening, and
/// from then on drops what it is given.
#[derive(Drop)]
pub(crate) struct Tap {
    pub(crate) stream: Option<TcpStream>,
}

impl Write for Tap {
    fn write(&mut self, bytes: &[u8]) -> io::Result<usize> {
        match &mut self.stream {
            Some(stream) => stream.write(bytes),
            None => Ok(bytes.len()),
        }
    }

    fn flush(&mut self) -> io::Result<()> {
        Ok(())
    }
}

/// A connection that is read, and written to while it is opened.
pub(crate) type Both = Duplex<TcpStream, Tap>;

/// The reading half.
pub(crate) type Reading<K> = WebSocket<Both, K>;

/// The writing half.
pub(crate) type Writing<K> = WebSocket<TcpStream, K>;

/// The limits of all connections.
pub(crate) fn limits() -> WebSocketConfig {
    WebSocketConfig::default()
        .read_buffer_size(64 * 1024)
        .write_buffer_size(64 * 1024)
        .max_message_size(Some(LARGEST))
        .max_frame_size(Some(LARGEST))
}

/// A connection as what an opening reads from and writes to. Small writes go out at once.
pub(crate) fn both(stream: TcpStream) -> io::Result<Both> {
    stream.set_nodelay(true)?;
    let writer = stream.try_clone()?;
    Ok(Duplex {
        reader: stream,
        writer: Tap {
            stream: Some(writer),
        },
    })
}

/// Sets how long reads and writes of an open connection wait.
pub(crate) fn set_patience(stream: &TcpStream) -> io::Result<()> {
    stream.set_nonblocking(false)?;
    stream.set_read_timeout(Some(Duration::from_millis(READ_MILLIS)))?;
    stream.set_write_timeout(Some(Duration::from_secs(WRITE_SECS)))
}

/// Takes the writing half out of a connection that was opened. It has keys of its own.
pub(crate) fn split<K: MaskKeys + Drop>(
    alloc: Global,
    mut reading: Reading<K>,
    keys: K,
    role: Role,
) -> Option<(Reading<K>, Writing<K>)> {
    let stream = reading.get_mut().writer.stream.take()?;
    let writing = WebSocket::from_raw_socket(alloc, stream, keys, role, Some(limits()));
    Some((reading, writing))
}
