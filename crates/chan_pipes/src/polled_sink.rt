//! A sink whose writes end with its session.

ghost use Rattle.std.specs.Prelude.{None, ◌≡◌};

use crate::stop::Stop;
use crate::write_end::WriteEnd;
use chan_io::{Failed, Sink};
use std::io::ErrorKind;
use std::marker::Model;

/// How many bytes are written at once. So many fit where a pipe can be written to (POSIX, PIPE_BUF).
const PIECE: usize = 4096;

/// The bytes that a writer with a descriptor takes: a connection, a pipe, standard output. Once the session is
/// over a write that cannot go on fails. It lets the writer go when it is finished and at a failure, and
/// tells none of the bytes. Contracts see it as its count of faults.
#[derive(Drop)]
pub struct PolledSink<'a, W> {
    // None once it was let go.
    writer: Option<W>,
    stop: &'a Stop,
    faults: u64,
}

impl<'a, W> Model for PolledSink<'a, W> {
    ghost use Rattle.std.specs.Prelude.{ℕ};

    ghost Value = { ℕ };

    ghost view = { λ s. s.faults };
}

impl<'a, W> PolledSink<'a, W> {
    /// A sink that writes to the writer until the session is over.
    pub fn new(writer: W, stop: &'a Stop) -> PolledSink<'a, W>
        ensures { result ≡ 0 }
    {
        PolledSink {
            writer: Some(writer),
            stop,
            faults: 0,
        }
    }
}

impl<'a, W: WriteEnd> Sink for PolledSink<'a, W> {
    ghost output = { λ _. None };

    ghost faults = { λ s. s };

    fn write(&mut self, from: &[u8]) -> Result<(), Failed> {
        if let Some(writer) = &mut self.writer {
            if write_while(self.stop, writer, from).is_ok() {
                return Ok(());
            }
        }
        self.writer = None;
        self.faults = self.faults.saturating_add(1);
        Err(Failed)
    }

    fn finish(&mut self) -> Result<(), Failed> {
        if let Some(mut writer) = self.writer.take() {
            if writer.end().is_ok() {
                return Ok(());
            }
        }
        self.faults = self.faults.saturating_add(1);
        Err(Failed)
    }
}

/// Writes all of the bytes while the session lasts.
fn write_while<W: WriteEnd>(stop: &Stop, writer: &mut W, from: &[u8]) -> Result<(), Failed> {
    let mut rest = from;
    for _ in 0..u64::MAX {
        if rest.is_empty() {
            return Ok(());
        }
        if !stop.wait_to_write(writer) {
            break;
        }
        let piece = &rest[..rest.len().min(PIECE)];
        match writer.write(piece) {
            Ok(0) => break,
            Ok(count) => rest = &rest[count.min(rest.len())..],
            Err(error) => {
                let kind = error.kind();
                if kind != ErrorKind::Interrupted && kind != ErrorKind::WouldBlock {
                    break;
                }
            }
        }
    }
    Err(Failed)
}
