//! A line of a script.

ghost use Rattle.std.specs.Prelude.{◌≡◌};
ghost use Rattle.lab_script.specs.Command.{verb_of};

use crate::verb::Verb;
use crate::word::Which;
use chan_values::{Item, Side};

/// What a line of a script asks for.
#[derive(Debug, Drop)]
pub enum Command {
    /// The moment is set, in milliseconds.
    At { moment: u64 },
    /// Both ends connect anew and exchange all that is left.
    Settle,
    /// One end does something.
    On(Side, Action),
}

/// What a line asks of one end.
#[derive(Debug, Drop)]
pub enum Action {
    /// It puts in an item.
    Put {
        item: Item,
    },
    /// It puts in an item, the last one of its direction.
    PutLast {
        item: Item,
    },
    /// It pulls.
    Pull,
    /// It looks at its timer.
    Tick,
    /// It closes.
    Close,
    /// It hears an emission of the other end.
    Hear {
        which: Which,
    },
    /// It is given an emission of the other end with one payload byte changed.
    Hurt {
        which: Which,
        /// The place of the byte in the payload, from 0.
        place: u64,
    },
    /// It loses its connection.
    Lost,
    /// It has a connection.
    Open,
    /// It hears a pause.
    Pause,
    /// It hears a start.
    Start,
    /// It hears a closing.
    End,
}

impl Action {
    /// The verb of the action.
    pub fn verb(&self) -> Verb
        ensures { result ≡ verb_of self.now }
    {
        match self {
            Action::Put { .. } => Verb::Put,
            Action::PutLast { .. } => Verb::Last,
            Action::Pull => Verb::Pull,
            Action::Tick => Verb::Tick,
            Action::Close => Verb::Close,
            Action::Hear { .. } => Verb::Hear,
            Action::Hurt { .. } => Verb::Hurt,
            Action::Lost => Verb::Lost,
            Action::Open => Verb::Open,
            Action::Pause => Verb::Pause,
            Action::Start => Verb::Start,
            Action::End => Verb::End,
        }
    }
}
