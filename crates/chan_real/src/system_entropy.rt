//! Random bytes of the system.

ghost use Rattle.std.specs.Prelude.{None};

use chan_io::{Entropy, Failed};
use std::fs;
use std::fs::Files;
use std::io::Read;

/// Where the system gives random bytes.
const DEVICE: &str = "/dev/urandom";

/// The random bytes of a reader, as `/dev/urandom`: 16 of them a draw. It tells none of them.
#[derive(Debug, Drop)]
pub struct SystemEntropy<F> {
    // None where it could not be opened: each draw fails.
    reader: Option<F>,
    faults: u64,
}

impl<F: Read> SystemEntropy<F> {
    /// The random bytes of this reader; without one, each draw fails.
    pub fn new(reader: Option<F>) -> SystemEntropy<F> {
        SystemEntropy { reader, faults: 0 }
    }

    /// The random bytes of `/dev/urandom`.
    pub fn open<R: Files<File = F>>(rt: &R) -> SystemEntropy<F> {
        SystemEntropy::new(fs::open(rt, DEVICE).ok())
    }
}

impl<F: Read> Entropy for SystemEntropy<F> {
    ghost draws = { λ _. None };

    ghost fault_count = { λ e. e.faults };

    fn draw(&mut self) -> Result<[u8; 16], Failed> {
        let drawn = match &mut self.reader {
            Some(reader) => read_16(reader),
            None => Err(Failed),
        };
        if drawn.is_err() {
            self.faults = self.faults.saturating_add(1);
        }
        drawn
    }

    fn faults(&self) -> u64 {
        self.faults
    }
}

/// The next 16 bytes of a reader. Fewer are a failure.
fn read_16<F: Read>(reader: &mut F) -> Result<[u8; 16], Failed> {
    let mut drawn = [0; 16];
    match reader.read_exact(&mut drawn) {
        Ok(()) => Ok(drawn),
        Err(_) => Err(Failed),
    }
}
