//! A line of a script whose ends reach each other through the relay.

ghost use Rattle.std.specs.Prelude.{◌≡◌};
ghost use Rattle.lab_script.specs.RelayCommand.{relay_verb_of};

use crate::verb::Verb;
use crate::word::Which;
use chan_values::{Item, Side};

/// What a line of a script asks for where the relay stands between the ends.
#[derive(Debug, Drop)]
pub enum RelayCommand {
    /// The moment is set, in milliseconds.
    At { moment: u64 },
    /// The relay is told that the session ends.
    Finish,
    /// One end does something.
    On(Side, RelayAction),
}

/// What a line asks of one end, or of the relay for one end.
#[derive(Debug, Drop)]
pub enum RelayAction {
    /// It puts in an item.
    Put { item: Item },
    /// It puts in an item, the last one of its direction.
    PutLast { item: Item },
    /// It pulls.
    Pull,
    /// It looks at its timer.
    Tick,
    /// It closes.
    Close,
    /// It has a new connection to the relay.
    Dial,
    /// Its last connection to the relay is gone.
    Gone,
    /// One of its emissions goes to the relay on its last connection.
    Post { which: Which },
    /// It hears a message that the relay sent to it: one of its inbox, which is numbered from 0.
    Take { which: Which },
}

impl RelayAction {
    /// The verb of the action.
    pub fn verb(&self) -> Verb
        ensures { result ≡ relay_verb_of self.now }
    {
        match self {
            RelayAction::Put { .. } => Verb::Put,
            RelayAction::PutLast { .. } => Verb::Last,
            RelayAction::Pull => Verb::Pull,
            RelayAction::Tick => Verb::Tick,
            RelayAction::Close => Verb::Close,
            RelayAction::Dial => Verb::Dial,
            RelayAction::Gone => Verb::Gone,
            RelayAction::Post { .. } => Verb::Post,
            RelayAction::Take { .. } => Verb::Take,
        }
    }
}
