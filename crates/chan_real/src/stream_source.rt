//! A source over a reader of the standard library.

ghost use Rattle.std.specs.Prelude.{None, ◌≤◌, IfOk, length};

use chan_io::{Failed, Source};
use std::io::{ErrorKind, Read};

/// The bytes of a reader, as standard input. It tells none of them.
#[derive(Drop)]
pub struct StreamSource<R> {
    reader: R,
    faults: u64,
}

impl<R: Read> StreamSource<R> {
    /// A source that reads from the reader.
    pub fn new(reader: R) -> StreamSource<R> {
        StreamSource { reader, faults: 0 }
    }
}

impl<R: Read> Source for StreamSource<R> {
    ghost input = { λ _. None };

    ghost faults = { λ s. s.faults };

    fn read(&mut self, into: &mut [u8]) -> Result<usize, Failed> {
        let count = read_uninterrupted(&mut self.reader, into);
        if count.is_err() {
            self.faults = self.faults.saturating_add(1);
        }
        count
    }
}

/// One read, made again where a signal cut it short.
fn read_uninterrupted<R: Read>(reader: &mut R, into: &mut [u8]) -> Result<usize, Failed>
    ensures { IfOk result (λ count. count ≤ length into.new) }
{
    for _ in 0..u64::MAX {
        match reader.read(into) {
            Ok(count) => return Ok(count),
            Err(error) => {
                if error.kind() != ErrorKind::Interrupted {
                    break;
                }
            }
        }
    }
    Err(Failed)
}
