//! What is reported of an answer.

ghost use Rattle.std.specs.Prelude.{◌≡◌, ◌≢◌, IfOk};
ghost use Rattle.channel_core.specs.declared.message.Incoming.{Incoming};
ghost use Rattle.channel_core.specs.declared.answer.Heard.TheVariants as Heard;
ghost use Rattle.lab_run.specs.Damage.{outcome_of_refusal};
ghost use Rattle.lab_run.specs.Outcomes.{is_emission, outcome_of_heard, outcome_of_put};

use chan_values::NoMemory;
use channel_core::wire::InRefusal;
use channel_core::{Heard, Put};
use lab_script::Outcome;

/// What is reported of a put.
pub fn outcome_of_put(put: Put) -> Outcome
    ensures { result ≡ outcome_of_put put }
{
    match put {
        Put::Seq(seq) => Outcome::Seq(seq),
        Put::Closed(_) => Outcome::Closed,
        Put::Past(_) => Outcome::Past,
        Put::Spent(_) => Outcome::Spent,
        Put::Full(_) => Outcome::Full,
    }
}

/// What is reported of a message that was heard.
pub fn outcome_of_heard(heard: Heard) -> Result<Outcome, NoMemory>
    ensures { IfOk result (λ outcome. (outcome ≡ outcome_of_heard heard)
        × ((incoming : Incoming) → heard ≢ Heard.NoMemory incoming)) }
{
    match heard {
        Heard::Released(items) => Ok(Outcome::Released(items)),
        Heard::Finished(items) => Ok(Outcome::Finished(items)),
        Heard::Late => Ok(Outcome::Late),
        Heard::Beyond => Ok(Outcome::Beyond),
        Heard::PastEnd(seq) => Ok(Outcome::PastEnd(seq)),
        Heard::Acked(seq) => Ok(Outcome::Acked(seq)),
        Heard::UnknownAck(seq) => Ok(Outcome::UnknownAck(seq)),
        Heard::Paused => Ok(Outcome::Paused),
        Heard::Started => Ok(Outcome::Started),
        Heard::Ended => Ok(Outcome::Ended),
        Heard::AfterClose => Ok(Outcome::AfterClose),
        Heard::NoMemory(_) => Err(NoMemory),
    }
}

/// What is reported of bytes that are no message to the end. What is wrong inside of a whole message is
/// not told.
pub fn outcome_of_refusal(refusal: InRefusal) -> Result<Outcome, NoMemory>
    ensures { IfOk result (λ outcome. (outcome ≡ outcome_of_refusal refusal)
        × (refusal ≢ InRefusal.NoMemory)) }
{
    match refusal {
        InRefusal::Message(refusal) => Ok(Outcome::Refused(u64::from(refusal.number()))),
        InRefusal::NoMemory => Err(NoMemory),
        _ => Ok(Outcome::Passed),
    }
}

/// Whether this is an emission.
pub fn is_emission(outcome: &Outcome) -> bool
    ensures { result ≡ is_emission outcome.now }
{
    match outcome {
        Outcome::Emit { .. } => true,
        _ => false,
    }
}
