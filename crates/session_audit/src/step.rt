//! One act more at one end.

ghost use Rattle.std.specs.Prelude.{◌≡◌, ℕ, List, IfOk};
ghost use Rattle.channel_core.specs.Call.{Entry};
ghost use Rattle.channel_core.specs.Resending.{sent_since_opened};
ghost use Rattle.session_audit.specs.Ends.{IsActable, IsAgain};
ghost use Rattle.session_audit.specs.Looking.{sent_in};
ghost use Rattle.session_audit.specs.Marks.{AreMarks, AreOne};
ghost use Rattle.session_audit.specs.Seats.{Advances};

use crate::act::Act;
use crate::marks::Marks;
use crate::reading::Saying;
use crate::replay::replay;
use chan_values::NoMemory;
use channel_core::{End, Outgoing};
use std::alloc::Global;

/// What became of an act that was to be replayed.
#[derive(Clone, Copy, Debug, PartialEq, Eq)]
pub enum Step {
    /// It is replayed.
    Done,
    /// The end doesn't show it. The end is of no use any more.
    NotShown,
    /// The other end hasn't given out what is heard. Nothing changed.
    Unheard,
}

/// Replays an act of an end after those that it did, where the other end did the others. The marks tell
/// of both.
pub fn advance(
    alloc: Global,
    end: &mut End,
    mine: &Marks,
    theirs: &Marks,
    sayings: &[Saying],
    act: &Act,
) -> Result<Step, NoMemory>
    requires { IsActable act.now }
    ensures { IfOk result (λ step. (acts others : List Act) (a b : ℕ)
        → AreMarks mine.now sayings.now acts a
        → AreMarks theirs.now sayings.now others b
        → AreOne others
        → Advances end.old end.new acts others act.now step) }
{
    if !theirs.was_given(sayings, act) {
        return Ok(Step::Unheard);
    }
    let again = goes_again(mine, act);
    let shown = replay(alloc, end, act, again)?;
    if shown {
        Ok(Step::Done)
    } else {
        Ok(Step::NotShown)
    }
}

/// Whether an act gives out a stream message that went out before on the present connection.
fn goes_again(mine: &Marks, act: &Act) -> bool
    ensures { (sayings : List Saying) (acts : List Act) (before : ℕ) (h : List Entry)
        → AreMarks mine.now sayings acts before
        → sent_since_opened h ≡ sent_in acts
        → IsAgain result h act.now }
{
    match act {
        Act::Emits(out) => match out {
            Outgoing::Stream(message) => mine.was_sent(message.seq),
            Outgoing::Ack { .. } => false,
        },
        _ => false,
    }
}
