//! Two ends and the relay between them.

ghost use Rattle.std.specs.Prelude.{◌≡◌, ◌≤◌, ◌++◌, ◌∷◌, [], ℕ, List, IfOk, OnOk, map};
ghost use Rattle.std.specs.List.{cons_option};
ghost use Rattle.std.specs.Option.{option_map};
ghost use Rattle.chan_values.specs.Limits.{max_window};
ghost use Rattle.chan_values.specs.declared.side.Side.{Side};
ghost use Rattle.channel_core.specs.declared.message.Incoming.{Incoming};
ghost use Rattle.relay_core.specs.declared.event.Event.{Event as RelayEvent};
ghost use Rattle.relay_core.specs.Forwarding.{IsNew};
ghost use Rattle.relay_core.specs.Kept.{Stands};
ghost use Rattle.lab_script.specs.Command.{IsAction};
ghost use Rattle.lab_run.specs.Steps.{id_of};
ghost use Rattle.lab_relay.specs.Held.{Comes, IsHub, StandsFor, bytes_for};
ghost use Rattle.lab_relay.specs.Scene.{Scene, letter_to, start};
ghost use Rattle.lab_relay.specs.Steps.{plain};

use crate::hub::Hub;
use crate::inboxes::Inboxes;
use chan_values::{NoMemory, Side};
use lab_run::{Context, Endpoint, Pair};
use lab_script::Action;
use relay_core::{Event, Relay};
use std::alloc::Global;

/// A plugin's end and an agent's end, the relay, who made its connections, and what it sent.
#[derive(Drop)]
pub struct Relayed {
    pub pair: Pair,
    pub relay: Relay,
    pub hub: Hub,
    pub inboxes: Inboxes,
}

impl Relayed {
    /// Two new ends without a connection, and a relay at which nothing has happened.
    pub(crate) fn new(alloc: Global, window: u64) -> Result<Relayed, NoMemory>
        requires low { 1 ≤ window }
        requires high { window ≤ max_window }
        ensures { IfOk result (StandsFor window start) }
    {
        Ok(Relayed {
            pair: Pair {
                plugin: Endpoint::new(alloc, Side::Plugin, window)?,
                agent: Endpoint::new(alloc, Side::Agent, window)?,
            },
            relay: Relay::new(alloc),
            hub: Hub::new(alloc),
            inboxes: Inboxes::new(alloc),
        })
    }

    /// Does what a line asks of one end alone.
    pub(crate) fn act(
        &mut self,
        context: &Context,
        side: Side,
        action: Action,
    ) -> Result<(), NoMemory>
        requires { IsAction action }
        ensures { (w : ℕ) (s : Scene) → StandsFor w s self.old
            → let turn = plain w s context.now.moment context.now.line side action in
            OnOk result (StandsFor w turn.scene self.new) }
    {
        let outcome = self.pair.act(context, side, action)?;
        self.pair.keep(side, outcome)
    }

    /// An event comes to the relay. What it sends is added to the inboxes.
    pub(crate) fn come(&mut self, context: &Context, event: Event) -> Result<(), NoMemory>
        ensures { (es : List RelayEvent) → Stands self.old.relay es → IsNew es event
            → IsHub (es ++ event ∷ []) self.old.hub
            → OnOk result
            (Comes es event context.now.line context.now.moment self.old self.new) }
    {
        let actions = self.relay.step(event, id_of(context.line), context.moment)?;
        for action in actions.into_vec() {
            deliver(&self.hub, &mut self.inboxes, action)?;
        }
        Ok(())
    }
}

/// Adds what an action of the relay sends to the inbox of the end that made the connection.
fn deliver(hub: &Hub, inboxes: &mut Inboxes, action: relay_core::Action) -> Result<(), NoMemory>
    ensures { (es : List RelayEvent) (says : ℕ → Incoming) (side : Side) → IsHub es hub.now
        → OnOk result (bytes_for side inboxes.new ≡ bytes_for side inboxes.old
        ++ map (λ l. l.bytes) (cons_option (letter_to es says side action) [])) }
{
    if let relay_core::Action::Send(conn, bytes) = action {
        if let Some(side) = hub.end_of(conn) {
            return inboxes.add(side, bytes);
        }
    }
    Ok(())
}

/// The MessageId of what the relay sends on a line.
fn id_of(line: u64) -> [u8; 16]
    ensures { result ≡ id_of line }
{
    let mut id = [0u8; 16];
    id[8..].copy_from_slice(&line.to_be_bytes());
    id
}
