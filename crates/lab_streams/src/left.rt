//! Bytes that came and are not taken yet.

ghost use Rattle.std.specs.Prelude.{◌≡◌, ◌++◌, [], drop, length, OnOk};

use chan_values::NoMemory;
use std::alloc::Global;
use std::marker::Model;

/// Bytes that come in at the end, are looked at in place and leave at the front. Each byte is moved
/// a bounded number of times, however few leave at once.
#[derive(Drop)]
pub struct Left {
    alloc: Global,
    bytes: Vec<u8>,
    // How many of them have left.
    gone: usize,
}

impl Model for Left {
    ghost use Rattle.std.specs.Prelude.{List, ℕ, drop, length, ◌≤◌};

    ghost Value = { List ℕ };

    ghost view = { λ l. drop l.gone l.bytes.items };

    ghost invariant = { λ l. l.gone ≤ length l.bytes.items };
}

impl Left {
    /// No bytes.
    pub fn new(alloc: Global) -> Left
        ensures { result ≡ [] }
    {
        Left {
            alloc,
            bytes: Vec::new(alloc),
            gone: 0,
        }
    }

    /// How many bytes there are.
    pub fn len(&self) -> usize
        ensures { result ≡ length self.now }
    {
        self.bytes.len() - self.gone
    }

    /// The bytes in place.
    pub fn as_slice(&self) -> &[u8]
        ensures { result.now ≡ self.now }
    {
        &self.bytes[self.gone..]
    }

    /// Adds bytes at the end.
    pub fn append(&mut self, more: &[u8]) -> Result<(), NoMemory>
        ensures { OnOk result (self.new ≡ self.old ++ more.now) }
    {
        self.bytes.extend_from_slice(more)?;
        Ok(())
    }

    /// Lets the first bytes go, as many as there are up to `count`.
    pub fn advance(&mut self, count: usize)
        ensures { self.new ≡ drop count self.old }
    {
        self.gone += self.len().min(count);
        self.shrink();
    }

    /// Lets the room of the bytes go that have left, once it is more than half. Without memory it
    /// stays.
    fn shrink(&mut self)
        ensures { self.new ≡ self.old }
    {
        if self.gone > self.bytes.len() / 2 {
            if let Ok(rest) = Vec::from_slice(self.alloc, &self.bytes[self.gone..]) {
                self.bytes = rest;
                self.gone = 0;
            }
        }
    }
}
