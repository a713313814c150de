//! A source whose reads end with its session.

ghost use Rattle.std.specs.Prelude.{None, ◌≡◌, ◌≤◌, IfOk, length};

use crate::stop::Stop;
use chan_io::{Failed, Source};
use std::io::{ErrorKind, Read};
use std::marker::Model;
use std::os::fd::AsRawFd;

/// The bytes of a reader with a descriptor: a connection, a pipe, standard input. Once the session is over
/// it is at its end. It lets the reader go at its end and at a failure, and tells none of the bytes.
/// Contracts see it as its count of faults.
#[derive(Drop)]
pub struct PolledSource<'a, R> {
    // None once it was let go.
    reader: Option<R>,
    stop: &'a Stop,
    faults: u64,
}

impl<'a, R> Model for PolledSource<'a, R> {
    ghost use Rattle.std.specs.Prelude.{ℕ};

    ghost Value = { ℕ };

    ghost view = { λ s. s.faults };
}

impl<'a, R> PolledSource<'a, R> {
    /// A source that reads from the reader until the session is over.
    pub fn new(reader: R, stop: &'a Stop) -> PolledSource<'a, R>
        ensures { result ≡ 0 }
    {
        PolledSource {
            reader: Some(reader),
            stop,
            faults: 0,
        }
    }
}

impl<'a, R: Read + AsRawFd + Drop> Source for PolledSource<'a, R> {
    ghost input = { λ _. None };

    ghost faults = { λ s. s };

    fn read(&mut self, into: &mut [u8]) -> Result<usize, Failed> {
        let Some(reader) = &mut self.reader else {
            return Ok(0);
        };
        match read_while(self.stop, reader, into) {
            Ok(0) => {
                self.reader = None;
                Ok(0)
            }
            Ok(count) => Ok(count),
            Err(fault) => {
                self.reader = None;
                self.faults = self.faults.saturating_add(1);
                Err(fault)
            }
        }
    }
}

/// One read while the session lasts, made again where it was cut short. 0 is the end of both.
fn read_while<R: Read + AsRawFd>(
    stop: &Stop,
    reader: &mut R,
    into: &mut [u8],
) -> Result<usize, Failed>
    ensures { IfOk result (λ count. count ≤ length into.new) }
{
    for _ in 0..u64::MAX {
        if !stop.wait_to_read(reader) {
            return Ok(0);
        }
        match reader.read(into) {
            Ok(count) => return Ok(count),
            Err(error) => {
                let kind = error.kind();
                if kind != ErrorKind::Interrupted && kind != ErrorKind::WouldBlock {
                    break;
                }
            }
        }
    }
    Err(Failed)
}
