//! The verdict on a journal.

ghost use Rattle.std.specs.Prelude.{◌≡◌, ◌⊎◌, ◌≤◌, ℕ, List};
ghost use Rattle.chan_values.specs.Limits.{max_window};
ghost use Rattle.session_audit.specs.Halting.{Halts};
ghost use Rattle.session_audit.specs.Judging.{IsTotals, why_of};
ghost use Rattle.session_audit.specs.Playing.{AreActable};
ghost use Rattle.session_audit.specs.Readings.{IsRead};
ghost use Rattle.session_audit.specs.Verdict.{IsVerdict};
ghost use Rattle.session_audit.specs.declared.verdict.Audit.TheVariants as Audit;

use crate::act::Act;
use crate::play::{Seats, play};
use crate::reading::{Saying, Unread, read_journal};
use crate::verdict::{Audit, Totals, Why};
use std::alloc::Global;

/// The verdict on a journal of what two ends with a window did on the wire.
pub fn audit(alloc: Global, bytes: &[u8], window: u64) -> Audit
    requires low { 1 ≤ window }
    requires high { window ≤ max_window }
    ensures { (result ≡ Audit.NoMemory) ⊎ IsVerdict window bytes.now result }
{
    match read_journal(alloc, bytes) {
        Ok(sayings) => replayed(alloc, sayings.as_slice(), window),
        Err(unread) => match unread {
            Unread::Fault(at, why) => Audit::Bad(at, why),
            Unread::NoMemory => Audit::NoMemory,
        },
    }
}

/// The verdict on a journal of these sayings.
fn replayed(alloc: Global, sayings: &[Saying], window: u64) -> Audit
    requires low { 1 ≤ window }
    requires high { window ≤ max_window }
    requires actable { AreActable sayings.now }
    ensures { (bytes : List ℕ) → IsRead bytes sayings.now
        → (result ≡ Audit.NoMemory) ⊎ IsVerdict window bytes result }
{
    match play(alloc, window, sayings) {
        Ok(seats) => verdict_of(sayings, &seats),
        Err(_) => Audit::NoMemory,
    }
}

/// The verdict, by what is left when both ends halt: the first saying of these, or none.
fn verdict_of(sayings: &[Saying], seats: &Seats) -> Audit
    ensures { (w : ℕ) (bytes : List ℕ)
        → IsRead bytes sayings.now
        → Halts w sayings.now seats.now.plugin seats.now.agent
        → IsVerdict w bytes result }
{
    let first = seats.plugin.next().min(seats.agent.next());
    if first >= sayings.len() {
        return Audit::Yes(totals_of(seats));
    }
    let saying = &sayings[first];
    Audit::Bad(saying.at, why_of(&saying.act))
}

/// Why a saying can't be done.
fn why_of(act: &Option<Act>) -> Why
    ensures { result ≡ why_of act.now }
{
    match act {
        Some(act) => match act {
            Act::Hears(_) => Why::Unheard,
            _ => Why::NotEmitted,
        },
        None => Why::NotEmitted,
    }
}

/// What the ends' users put in and were given.
fn totals_of(seats: &Seats) -> Totals
    ensures { IsTotals seats.now.plugin.end seats.now.agent.end result }
{
    let plugin = seats.plugin.end().look();
    let agent = seats.agent.end().look();
    Totals {
        sent_p: plugin.next,
        sent_a: agent.next,
        released_a: agent.expected,
        released_p: plugin.expected,
    }
}
