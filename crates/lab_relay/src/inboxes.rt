//! What the relay sent to the ends.

ghost use Rattle.std.specs.Prelude.{◌≡◌, ◌++◌, ◌∷◌, [], if◌then◌else◌, IfOk, OnOk};
ghost use Rattle.std.specs.Option.{option_copied};
ghost use Rattle.chan_values.specs.declared.side.Side.{Side};
ghost use Rattle.session_register.specs.Chains.{same_side};
ghost use Rattle.lab_run.specs.Steps.{emission_at};
ghost use Rattle.lab_relay.specs.Held.{bytes_for};

use chan_values::{Bytes, NoMemory, Side};
use lab_script::Which;
use std::alloc::Global;

/// The messages that the relay sent to each end, in order. What an end heard stays.
#[derive(Drop)]
pub struct Inboxes {
    pub plugin: Vec<Bytes>,
    pub agent: Vec<Bytes>,
}

impl Inboxes {
    /// Nothing was sent.
    pub(crate) fn new(alloc: Global) -> Inboxes
        ensures { (side : Side) → bytes_for side result ≡ [] }
    {
        Inboxes {
            plugin: Vec::new(alloc),
            agent: Vec::new(alloc),
        }
    }

    /// Adds a message for an end.
    pub(crate) fn add(&mut self, side: Side, bytes: Bytes) -> Result<(), NoMemory>
        ensures { (z : Side) → OnOk result (bytes_for z self.new
            ≡ bytes_for z self.old ++ (if same_side side z then bytes ∷ [] else [])) }
    {
        match side {
            Side::Plugin => self.plugin.push(bytes)?,
            Side::Agent => self.agent.push(bytes)?,
        }
        Ok(())
    }

    /// The message of an inbox that a line means.
    pub(crate) fn message(&self, side: Side, which: Which) -> Option<&Bytes>
        ensures { option_copied result ≡ emission_at (bytes_for side self.now) which }
    {
        match side {
            Side::Plugin => message_at(&self.plugin, which),
            Side::Agent => message_at(&self.agent, which),
        }
    }
}

/// The one of these messages that a line means.
pub(crate) fn message_at(messages: &[Bytes], which: Which) -> Option<&Bytes>
    ensures { option_copied result ≡ emission_at messages.now which }
{
    match which {
        Which::Number(k) => messages.get(k as usize),
        Which::Last => messages.last(),
    }
}
