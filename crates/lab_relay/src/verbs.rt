//! What the verbs of the relay do.

ghost use Rattle.std.specs.Prelude.{◌≡◌, ◌≢◌, ℕ, if◌then◌else◌, IfOk};
ghost use Rattle.std.specs.Option.{option_copied};
ghost use Rattle.channel_core.specs.declared.call.EndCall.TheVariants as EndCall;
ghost use Rattle.channel_core.specs.declared.message.Incoming.{Incoming};
ghost use Rattle.channel_core.specs.declared.wire.InRefusal.TheVariants as InRefusal;
ghost use Rattle.relay_core.specs.Rooms.{is_conn};
ghost use Rattle.lab_script.specs.declared.outcome.RelayOutcome.TheVariants as RelayOutcome;
ghost use Rattle.lab_script.specs.declared.relay_command.RelayAction.TheVariants as RelayAction;
ghost use Rattle.lab_run.specs.Ends.{IsCalled, endpoint_of};
ghost use Rattle.lab_run.specs.Steps.{emission_at};
ghost use Rattle.lab_relay.specs.Held.{IsHeardAs, StandsFor};
ghost use Rattle.lab_relay.specs.Scene.{Scene, lab};
ghost use Rattle.lab_relay.specs.Steps.{dialed, finished, gone, turn_of};

use crate::inboxes::message_at;
use crate::relayed::Relayed;
use chan_values::{Bytes, NoMemory, Side};
use channel_core::End;
use channel_core::wire::{InRefusal, incoming};
use lab_run::calls::hear_message;
use lab_run::{Context, Pair};
use lab_script::{Action, Outcome, RelayOutcome, Which};
use relay_core::Event;
use session_register::SessionName;

/// An end makes a connection.
pub(crate) fn dial(
    context: &Context,
    relayed: &mut Relayed,
    side: Side,
) -> Result<Outcome, NoMemory>
    ensures { (w : ℕ) (s : Scene) → StandsFor w s relayed.old
        → let turn = dialed w s context.now.moment context.now.line side in
        IfOk result (λ outcome. (outcome ≡ turn.outcome) × StandsFor w turn.scene relayed.new) }
{
    relayed.act(context, side, Action::Open)?;
    let conn = relayed.hub.dial(side)?;
    let opened = Event::Opened {
        conn,
        session: session(),
        role: side,
        reply: Bytes::new(Vec::new(context.alloc)),
    };
    relayed.come(context, opened)?;
    Ok(Outcome::Relay(RelayOutcome::Connection(conn)))
}

/// An end and the relay lose the last connection of the end.
pub(crate) fn lose(
    context: &Context,
    relayed: &mut Relayed,
    side: Side,
) -> Result<Outcome, NoMemory>
    ensures { (w : ℕ) (s : Scene) → StandsFor w s relayed.old
        → let turn = gone w s context.now.moment context.now.line side in
        IfOk result (λ outcome. (outcome ≡ turn.outcome) × StandsFor w turn.scene relayed.new) }
{
    relayed.act(context, side, Action::Lost)?;
    let Some(conn) = relayed.hub.last(side) else {
        return Ok(Outcome::Quiet);
    };
    relayed.come(context, Event::Gone { conn })?;
    Ok(Outcome::Quiet)
}

/// An emission comes to the relay from the last connection of its end.
pub(crate) fn post(
    context: &Context,
    relayed: &mut Relayed,
    side: Side,
    which: Which,
) -> Result<Outcome, NoMemory>
    ensures { (w : ℕ) (s : Scene) → StandsFor w s relayed.old
        → let action = RelayAction.Post which in
        let turn = turn_of w s context.now.moment context.now.line side action in
        IfOk result (λ outcome. (outcome ≡ turn.outcome) × StandsFor w turn.scene relayed.new) }
{
    let Some(bytes) = emission(&relayed.pair, side, which) else {
        return Ok(Outcome::Absent);
    };
    let Some(conn) = relayed.hub.last(side) else {
        return Ok(Outcome::Relay(RelayOutcome::Dropped));
    };
    let bytes = bytes.copy(context.alloc)?;
    let is_current = is_conn(conn, relayed.relay.current(&session(), side));
    relayed.come(context, Event::Binary { conn, bytes })?;
    Ok(Outcome::Relay(posted(is_current)))
}

/// What is reported of a message that came to the relay.
fn posted(is_current: bool) -> RelayOutcome
    ensures { result ≡ (if is_current then RelayOutcome.Sent else RelayOutcome.Dropped) }
{
    if is_current {
        RelayOutcome::Sent
    } else {
        RelayOutcome::Dropped
    }
}

/// The emission of an end that a line means.
fn emission(pair: &Pair, side: Side, which: Which) -> Option<&Bytes>
    ensures { option_copied result
        ≡ emission_at (endpoint_of side pair.now).sent.items which }
{
    match side {
        Side::Plugin => message_at(&pair.plugin.sent, which),
        Side::Agent => message_at(&pair.agent.sent, which),
    }
}

fn is_conn(conn: u64, holder: Option<u64>) -> bool
    ensures { result ≡ is_conn conn holder }
{
    match holder {
        Some(other) => other == conn,
        None => false,
    }
}

/// An end hears a message of its inbox.
pub(crate) fn take(
    context: &Context,
    relayed: &mut Relayed,
    side: Side,
    which: Which,
) -> Result<Outcome, NoMemory>
    ensures { (w : ℕ) (s : Scene) → StandsFor w s relayed.old
        → let action = RelayAction.Take which in
        let turn = turn_of w s context.now.moment context.now.line side action in
        IfOk result (λ outcome. (outcome ≡ turn.outcome) × StandsFor w turn.scene relayed.new) }
{
    let Some(bytes) = relayed.inboxes.message(side, which) else {
        return Ok(Outcome::Absent);
    };
    let bytes = bytes.as_slice();
    match side {
        Side::Plugin => hear(context, Side::Plugin, &mut relayed.pair.plugin.end, bytes),
        Side::Agent => hear(context, Side::Agent, &mut relayed.pair.agent.end, bytes),
    }
}

/// An end hears the bytes of a message that the relay sent.
fn hear(context: &Context, side: Side, end: &mut End, bytes: &[u8]) -> Result<Outcome, NoMemory>
    ensures { (k : ℕ) (says : Incoming) → IsHeardAs side bytes.now says
        → let call = EndCall.Heard context.now.moment says in
        IfOk result (IsCalled side k call end.old end.new) }
{
    match incoming(context.alloc, side, bytes) {
        Ok(message) => hear_message(end, message, context.moment),
        Err(refusal) => unheard(refusal),
    }
}

/// What is reported of bytes that are no message to an end. The relay sends none.
fn unheard(refusal: InRefusal) -> Result<Outcome, NoMemory>
    ensures { IfOk result (λ _. refusal ≢ InRefusal.NoMemory) }
{
    match refusal {
        InRefusal::NoMemory => Err(NoMemory),
        _ => Ok(Outcome::Passed),
    }
}

/// The session ends.
pub(crate) fn finish(context: &Context, relayed: &mut Relayed) -> Result<Outcome, NoMemory>
    ensures { (w : ℕ) (s : Scene) → StandsFor w s relayed.old
        → let turn = finished s context.now.moment context.now.line in
        IfOk result (λ outcome. (outcome ≡ turn.outcome) × StandsFor w turn.scene relayed.new) }
{
    let session = session();
    relayed.come(context, Event::EndSession { session })?;
    Ok(Outcome::Quiet)
}

/// The session of a script.
fn session() -> SessionName
    ensures { result ≡ lab }
{
    match SessionName::new(b"lab") {
        Some(name) => name,
        None => unreachable!(),
    }
}
