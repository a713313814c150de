//! The two sides of the link of streams.

ghost use Rattle.std.specs.Prelude.{◌≡◌, ◌≤◌, ◌<◌, ℕ, Some, None, length, nat_lt, IfOk, OnOk};
ghost use Rattle.lab_script.specs.declared.verb.Verb.TheVariants as verbs;
ghost use Rattle.smux_frames.specs.Spelling.{max_written_data};
ghost use Rattle.lab_streams.specs.Ends.{GivesOut, IsFed, IsLink, IsSomeLink, KeepsBytes, MakesStep};
ghost use Rattle.lab_streams.specs.Run.{beginning};
ghost use Rattle.lab_streams.specs.Steps.{Past, bytes_of, close_step, open_step, take_step, write_step};

use crate::carrier::Carrier;
use crate::outcome::{outcome_of_open, outcome_of_taken, outcome_of_write};
use chan_values::{Bytes, Item, NoMemory, Side};
use lab_script::Outcome;
use smux_streams::Events;
use std::alloc::Global;

/// The two sides.
#[derive(Drop)]
pub struct Link {
    /// The plugin's side, which opens streams.
    pub plugin: Carrier,
    /// The agent's side.
    pub agent: Carrier,
}

impl Link {
    /// A link without streams.
    pub fn new(alloc: Global) -> Link
        ensures { IsLink beginning result }
    {
        Link {
            plugin: Carrier::client(alloc),
            agent: Carrier::server(alloc),
        }
    }

    /// Keeps the bytes of the streams that the end of a side released. Answers whether there are
    /// any.
    pub fn keep(&mut self, side: Side, items: &[Item]) -> Result<bool, NoMemory>
        ensures came { IfOk result (λ came. came ≡ nat_lt 0 (length (bytes_of items.now))) }
        ensures kept { OnOk result (KeepsBytes side (bytes_of items.now) self.old self.new) }
    {
        match side {
            Side::Plugin => self.plugin.keep(items),
            Side::Agent => self.agent.keep(items),
        }
    }

    /// Feeds what waits at a side to its Mux, and answers what its frames did.
    pub fn feed(&mut self, side: Side) -> Result<Events, NoMemory>
        ensures { (past : Past) (line : ℕ) → IsLink past self.old
            → IfOk result (IsFed past line side self.new) }
    {
        match side {
            Side::Plugin => self.plugin.feed(),
            Side::Agent => self.agent.feed(),
        }
    }

    /// Opens a stream.
    pub fn open(&mut self) -> Result<Outcome, NoMemory>
        requires { IsSomeLink self.old }
        ensures { (past : Past) (line : ℕ) → IsLink past self.old
            → IfOk result (MakesStep past (open_step past line) verbs.StreamOpen None self.new) }
    {
        outcome_of_open(self.plugin.mux.open())
    }

    /// Writes to a stream.
    pub fn write(&mut self, side: Side, sid: u32, bytes: &Bytes) -> Result<Outcome, NoMemory>
        requires some { 0 < length bytes.now }
        requires small { length bytes.now ≤ max_written_data }
        ensures { (past : Past) (line : ℕ) → IsLink past self.old
            → let s = write_step past line side sid bytes.now in
            IfOk result (MakesStep past s verbs.StreamWrite (Some side) self.new) }
    {
        let bytes = bytes.as_slice();
        match side {
            Side::Plugin => outcome_of_write(self.plugin.mux.write(sid, bytes)),
            Side::Agent => outcome_of_write(self.agent.mux.write(sid, bytes)),
        }
    }

    /// Closes a stream.
    pub fn close(&mut self, side: Side, sid: u32) -> Result<Outcome, NoMemory>
        ensures { (past : Past) (line : ℕ) → IsLink past self.old
            → let s = close_step past line side sid in
            IfOk result (MakesStep past s verbs.StreamClose (Some side) self.new) }
    {
        match side {
            Side::Plugin => outcome_of_write(self.plugin.mux.close(sid)),
            Side::Agent => outcome_of_write(self.agent.mux.close(sid)),
        }
    }

    /// Takes bytes of a stream, at most so many.
    pub fn take(&mut self, side: Side, sid: u32, most: usize) -> Result<Outcome, NoMemory>
        requires { 0 < most }
        ensures { (past : Past) (line : ℕ) → IsLink past self.old
            → let s = take_step past line side sid most in
            IfOk result (MakesStep past s verbs.StreamTake (Some side) self.new) }
    {
        match side {
            Side::Plugin => outcome_of_taken(self.plugin.mux.take(sid, most)),
            Side::Agent => outcome_of_taken(self.agent.mux.take(sid, most)),
        }
    }

    /// Asks a Mux for outgoing bytes, at most so many.
    pub fn give_out(&mut self, side: Side, most: usize) -> Result<Bytes, NoMemory>
        requires { IsSomeLink self.old }
        ensures bounded { IfOk result (λ bytes. length bytes ≤ most) }
        ensures given { (past : Past) → IsLink past self.old
            → IfOk result (GivesOut past side most self.new) }
    {
        match side {
            Side::Plugin => self.plugin.mux.out(most),
            Side::Agent => self.agent.mux.out(most),
        }
    }
}
