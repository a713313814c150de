//! What the relay does.

ghost use Rattle.std.specs.Prelude.{◌≡◌};

use chan_values::Bytes;
use std::marker::Model;

/// One action at a connection, by its number.
#[derive(Debug, Drop)]
pub enum Action {
    /// This text is sent.
    Text(u64, Bytes),
    /// This binary message is sent.
    Send(u64, Bytes),
    /// The connection is closed.
    Drop(u64),
}

/// A list of actions, as contracts see it. It is made from a vector and gives it back.
#[derive(Debug, Drop)]
pub struct Actions {
    actions: Vec<Action>,
}

impl Model for Actions {
    ghost use Rattle.std.specs.Prelude.{List};
    ghost use Rattle.relay_core.specs.declared.action.Action.{Action};

    ghost Value = { List Action };

    ghost view = { λ a. a.actions.items };
}

impl Actions {
    /// The actions of a vector.
    pub fn new(actions: Vec<Action>) -> Actions
        ensures { result ≡ actions.items }
    {
        Actions { actions }
    }

    /// The vector of the actions.
    pub fn into_vec(self) -> Vec<Action>
        ensures { result.items ≡ self }
    {
        self.actions
    }

    /// The actions in place.
    pub fn as_slice(&self) -> &[Action]
        ensures { result.now ≡ self.now }
    {
        self.actions.as_slice()
    }
}
