//! The messages of a link in memory that go out.

ghost use Rattle.std.specs.Prelude.{◌≡◌, ◌+◌, ◌-◌, ◌^◌, ◌++◌, ◌∷◌, [], min, OnOk, OnErr};
ghost use Rattle.chan_io.specs.LinksOut.{unsent};
ghost use Rattle.chan_io.specs.declared.got.Got.{Got};

use crate::got::Got;
use chan_values::{Bytes, NoMemory};
use std::alloc::Global;
use std::marker::Model;

/// What was sent on a link in memory, and how often it was shut.
#[derive(Debug, Drop)]
pub(crate) struct Outbox {
    alloc: Global,
    sent: Vec<Got>,
    shuts: u64,
}

impl Model for Outbox {
    ghost use Rattle.chan_io.specs.LinksOut.{Departures};

    ghost Value = { Departures };

    ghost view = { λ b. record { sent = b.sent.items; shuts = b.shuts } };
}

impl Outbox {
    /// Nothing was sent yet.
    pub(crate) fn new(alloc: Global) -> Outbox
        ensures { result ≡ unsent }
    {
        Outbox {
            alloc,
            sent: Vec::new(alloc),
            shuts: 0,
        }
    }

    /// What was sent.
    pub(crate) fn sent(&self) -> &[Got]
        ensures { result.now ≡ self.now.sent }
    {
        self.sent.as_slice()
    }

    /// How often it was shut.
    pub(crate) fn shuts(&self) -> u64
        ensures { result ≡ self.now.shuts }
    {
        self.shuts
    }

    /// Sends a binary message.
    pub(crate) fn send(&mut self, message: &[u8]) -> Result<(), NoMemory>
        ensures sent { OnOk result (self.new
            ≡ record self.old { sent = self.old.sent ++ Got.Binary message.now ∷ [] }) }
        ensures same { OnErr result (self.new ≡ self.old) }
    {
        let message = Vec::from_slice(self.alloc, message)?;
        self.sent.push(Got::Binary(Bytes::new(message)))?;
        Ok(())
    }

    /// Sends a text message.
    pub(crate) fn send_text(&mut self, text: &[u8]) -> Result<(), NoMemory>
        ensures sent { OnOk result (self.new
            ≡ record self.old { sent = self.old.sent ++ Got.Text text.now ∷ [] }) }
        ensures same { OnErr result (self.new ≡ self.old) }
    {
        let text = Vec::from_slice(self.alloc, text)?;
        self.sent.push(Got::Text(Bytes::new(text)))?;
        Ok(())
    }

    /// Shuts it.
    pub(crate) fn shut(&mut self)
        ensures { self.new ≡ record self.old { shuts = min (self.old.shuts + 1) (2 ^ 64 - 1) } }
    {
        self.shuts = self.shuts.saturating_add(1);
    }
}
