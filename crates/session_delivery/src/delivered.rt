//! What became of a step of the deliverer.

use crate::deliver_end::{DeliverEnd, end_of_refusal};
use session_crews::FeedDone;

/// What became of a step of the deliverer.
#[derive(Drop)]
pub enum Delivered<W, F> {
    /// Another step follows.
    On,
    /// It was the last.
    Ends(DeliverEnd),
    /// It was the last: memory was wanted before the start for the first of these feeders.
    NoRoom(Vec<F>),
    /// It was the last: a start was refused, with whether this was for want of memory. What the
    /// worker was to have came back, and these feeders are left.
    Refused(FeedDone<W, F>, bool, Vec<F>),
}

impl<W, F> Delivered<W, F> {
    ghost use Rattle.std.specs.Prelude.{◌≡◌};
    ghost use Rattle.session_delivery.specs.Answers.{ended_by};

    /// How the deliverer ends after this, if it does.
    pub(crate) fn ended(&self) -> Option<DeliverEnd>
        ensures { result ≡ ended_by self.now }
    {
        match self {
            Delivered::On => None,
            Delivered::Ends(end) => Some(*end),
            Delivered::NoRoom(_) => Some(DeliverEnd::NoMemory),
            Delivered::Refused(_, starved, _) => Some(end_of_refusal(*starved)),
        }
    }
}
