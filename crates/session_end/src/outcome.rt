//! What a run comes to.

ghost use Rattle.std.specs.Prelude.{◌≡◌};
ghost use Rattle.session_end.specs.Outcomes.{all_started, is_deliverer_starved, is_reader_starved, is_starved, is_writer_starved, outcome_given, outcome_left, outcome_of, outcome_read, outcome_served};

use crate::ends::Ends;
use chan_values::Bytes;
use session_delivery::DeliverEnd;
use session_feeds::SessionFault;
use session_workers::{ReadEnd, WorkerEnd};

/// What a run came to. Where several workers ended with a refusal, the first in this order is told.
#[derive(Debug, Drop)]
pub enum Outcome {
    /// The session was ended, and both sides had agreed on it.
    Ended,
    /// The session was ended, and the sides had not agreed on it.
    Unagreed,
    /// There was no memory.
    NoMemory,
    /// A reply to an opening did not accept, or did not read: its bytes.
    Refused(Bytes),
    /// Six dials in succession failed.
    LinkLost,
    /// The end gave up on the message with this number.
    GaveUp(u64),
    /// The session met a fault.
    Fault(SessionFault),
    /// A feeder of the session failed.
    FeedFault,
    /// A worker could not be started.
    NoThread,
    /// No base could be drawn. Nothing was started.
    EntropyFault,
}

/// The outcome of a run whose workers ended so.
pub(crate) fn outcome_of(ends: Ends) -> Outcome
    ensures { result ≡ outcome_of ends }
{
    if is_starved(&ends) {
        return Outcome::NoMemory;
    }
    let left = outcome_left(&ends);
    let served = outcome_served(ends.delivered, left);
    outcome_read(ends.reader, outcome_given(ends.gave_up, served))
}

/// Whether a worker ended for want of memory.
fn is_starved(ends: &Ends) -> bool
    ensures { result ≡ is_starved ends.now }
{
    is_writer_starved(ends.writer)
        || is_reader_starved(&ends.reader)
        || ends.refusals.no_memory
        || is_deliverer_starved(ends.started, ends.delivered)
}

/// Whether the link writer did.
fn is_writer_starved(end: Option<WorkerEnd>) -> bool
    ensures { result ≡ is_writer_starved end }
{
    matches!(end, Some(WorkerEnd::NoMemory))
}

/// Whether the link reader did.
fn is_reader_starved(end: &Option<ReadEnd>) -> bool
    ensures { result ≡ is_reader_starved end.now }
{
    matches!(end, Some(ReadEnd::NoMemory))
}

/// Whether the deliverer did. One that was started and did nothing counts as that.
fn is_deliverer_starved(started: bool, end: Option<DeliverEnd>) -> bool
    ensures { result ≡ is_deliverer_starved started end }
{
    match end {
        Some(DeliverEnd::NoMemory) => true,
        Some(_) => false,
        None => started,
    }
}

/// Whether all workers were started, but for those of feeders.
fn all_started(ends: &Ends) -> bool
    ensures { result ≡ all_started ends.now }
{
    ends.writer.is_some() && ends.resent && ends.reader.is_some() && ends.started
}

/// The outcome where no worker was refused for another cause than these.
fn outcome_left(ends: &Ends) -> Outcome
    ensures { result ≡ outcome_left ends.now }
{
    if ends.refusals.failed {
        return Outcome::FeedFault;
    }
    if ends.refusals.no_thread || !all_started(ends) {
        return Outcome::NoThread;
    }
    if ends.agreed {
        Outcome::Ended
    } else {
        Outcome::Unagreed
    }
}

/// The same with a fault of the session, which comes before.
fn outcome_served(end: Option<DeliverEnd>, later: Outcome) -> Outcome
    ensures { result ≡ outcome_served end later }
{
    match end {
        Some(DeliverEnd::Fault(fault)) => Outcome::Fault(fault),
        _ => later,
    }
}

/// With a number given up.
fn outcome_given(gave_up: Option<u64>, later: Outcome) -> Outcome
    ensures { result ≡ outcome_given gave_up later }
{
    match gave_up {
        Some(seq) => Outcome::GaveUp(seq),
        None => later,
    }
}

/// With a refusal of the link reader.
fn outcome_read(end: Option<ReadEnd>, later: Outcome) -> Outcome
    ensures { result ≡ outcome_read end later }
{
    match end {
        Some(ReadEnd::Refused(reply)) => Outcome::Refused(reply),
        Some(ReadEnd::LinkLost) => Outcome::LinkLost,
        _ => later,
    }
}
