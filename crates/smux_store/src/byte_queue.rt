//! A queue of bytes.

ghost use Rattle.std.specs.Prelude.{◌≡◌, ◌++◌, [], take, drop, length, IfOk, OnOk, OnErr};

use chan_values::{Bytes, NoMemory};
use std::alloc::Global;
use std::marker::Model;

/// Bytes that come in at the end and leave at the front. Each byte is moved a bounded number of times,
/// however small the pieces are that leave.
#[derive(Drop)]
pub struct ByteQueue {
    alloc: Global,
    bytes: Vec<u8>,
    // How many of them have left.
    gone: usize,
}

impl Model for ByteQueue {
    ghost use Rattle.std.specs.Prelude.{List, ℕ, drop, length, ◌≤◌};

    ghost Value = { List ℕ };

    ghost view = { λ q. drop q.gone q.bytes.items };

    ghost invariant = { λ q. q.gone ≤ length q.bytes.items };
}

impl ByteQueue {
    /// No bytes.
    pub fn new(alloc: Global) -> ByteQueue
        ensures { result ≡ [] }
    {
        ByteQueue {
            alloc,
            bytes: Vec::new(alloc),
            gone: 0,
        }
    }

    /// How many bytes there are.
    pub fn len(&self) -> usize
        ensures { result ≡ length self.now }
    {
        self.bytes.len() - self.gone
    }

    /// Adds bytes at the end.
    pub fn append(&mut self, more: &[u8]) -> Result<(), NoMemory>
        ensures ok { OnOk result (self.new ≡ self.old ++ more.now) }
        ensures err { OnErr result (self.new ≡ self.old) }
    {
        self.bytes.extend_from_slice(more)?;
        Ok(())
    }

    /// Takes the first bytes, at most `max`.
    pub fn take_front(&mut self, max: usize) -> Result<Bytes, NoMemory>
        ensures front { IfOk result (λ bytes. bytes ≡ take max self.old) }
        ensures rest { OnOk result (self.new ≡ drop max self.old) }
        ensures err { OnErr result (self.new ≡ self.old) }
    {
        let count = self.len().min(max);
        let front = Vec::from_slice(self.alloc, &self.bytes[self.gone..self.gone + count])?;
        self.gone += count;
        self.settle();
        Ok(Bytes::new(front))
    }

    /// Lets the room of the bytes go that have left, once it is more than half. Without memory it stays.
    fn settle(&mut self)
        ensures { self.new ≡ self.old }
    {
        if self.gone > self.bytes.len() / 2 {
            if let Ok(rest) = Vec::from_slice(self.alloc, &self.bytes[self.gone..]) {
                self.bytes = rest;
                self.gone = 0;
            }
        }
    }

    /// Lets all go but the first bytes.
    pub fn truncate(&mut self, len: usize)
        ensures { self.new ≡ take len self.old }
    {
        if len < self.len() {
            self.bytes.truncate(self.gone + len);
        }
    }
}
