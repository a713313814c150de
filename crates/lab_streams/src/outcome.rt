//! What is reported of an answer of a Mux.

ghost use Rattle.std.specs.Prelude.{◌≡◌, ◌≢◌, IfOk};
ghost use Rattle.lab_run.specs.Outcomes.{is_emission};
ghost use Rattle.lab_streams.specs.Outcomes.{items_in, outcome_of_event, outcome_of_no_room, outcome_of_open, outcome_of_taken, outcome_of_write};
ghost use Rattle.smux_store.specs.declared.answers.Open.TheVariants as Open;
ghost use Rattle.smux_store.specs.declared.answers.Taken.TheVariants as Taken;
ghost use Rattle.smux_streams.specs.declared.answers.Write.TheVariants as Write;

use chan_values::{Item, NoMemory};
use channel_core::Look;
use lab_script::{Outcome, StreamOutcome};
use smux_streams::{Event, Open, Taken, Write};

/// What is reported of the opening of a stream.
pub fn outcome_of_open(answer: Open) -> Result<Outcome, NoMemory>
    ensures { IfOk result (λ outcome.
        (outcome ≡ outcome_of_open answer) × (answer ≢ Open.NoMemory)) }
{
    match answer {
        Open::Sid(sid) => Ok(Outcome::Stream(StreamOutcome::Sid(sid))),
        Open::IdsSpent => Ok(Outcome::Stream(StreamOutcome::IdsSpent)),
        Open::TooMany => Ok(Outcome::Stream(StreamOutcome::TooMany)),
        Open::Full => Ok(Outcome::Full),
        Open::NoMemory => Err(NoMemory),
    }
}

/// What is reported of a write or a close.
pub fn outcome_of_write(write: Write) -> Result<Outcome, NoMemory>
    ensures { IfOk result (λ outcome.
        (outcome ≡ outcome_of_write write) × (write ≢ Write.NoMemory)) }
{
    match write {
        Write::Done => Ok(Outcome::Stream(StreamOutcome::Done)),
        Write::Unknown => Ok(Outcome::Stream(StreamOutcome::Unknown)),
        Write::Closed => Ok(Outcome::Closed),
        Write::Full => Ok(Outcome::Full),
        Write::NoMemory => Err(NoMemory),
    }
}

/// What is reported of a take.
pub fn outcome_of_taken(taken: Taken) -> Result<Outcome, NoMemory>
    ensures { IfOk result (λ outcome.
        (outcome ≡ outcome_of_taken taken) × (taken ≢ Taken.NoMemory)) }
{
    match taken {
        Taken::Bytes(bytes) => Ok(Outcome::Stream(StreamOutcome::Taken(bytes))),
        Taken::End => Ok(Outcome::Ended),
        Taken::Nothing => Ok(Outcome::Nothing),
        Taken::Unknown => Ok(Outcome::Stream(StreamOutcome::Unknown)),
        Taken::NoMemory => Err(NoMemory),
    }
}

/// What is reported of an event of a stream.
pub fn outcome_of_event(event: Event) -> Outcome
    ensures { result ≡ outcome_of_event event }
{
    match event {
        Event::Opened(sid) => Outcome::Stream(StreamOutcome::Opened(sid)),
        Event::Ready(sid) => Outcome::Stream(StreamOutcome::Ready(sid)),
        Event::Ended(sid) => Outcome::Stream(StreamOutcome::Ended(sid)),
        Event::Refused(sid) => Outcome::Stream(StreamOutcome::Refused(sid)),
    }
}

/// What a push reports at an end that has no room.
pub fn outcome_of_no_room(look: &Look) -> Outcome
    ensures { result ≡ outcome_of_no_room look.now }
{
    if look.closed {
        Outcome::Closed
    } else if look.finished {
        Outcome::Past
    } else {
        Outcome::Full
    }
}

/// The items that were released.
pub fn items_in(outcome: &Outcome) -> &[Item]
    ensures { result.now ≡ items_in outcome.now }
{
    match outcome {
        Outcome::Released(items) => items.as_slice(),
        Outcome::Finished(items) => items.as_slice(),
        _ => &[],
    }
}

/// Whether this is an emission.
pub fn is_emission(outcome: &Outcome) -> bool
    ensures { result ≡ is_emission outcome.now }
{
    match outcome {
        Outcome::Emit { .. } => true,
        _ => false,
    }
}
