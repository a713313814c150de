//! The calls of a switch and their answers.

use relay_core::{Action, Event};

/// A call of the switch.
#[derive(Drop)]
pub enum SwitchCall {
    /// An event, with the id and the moment of what the relay itself sends at it.
    Step {
        /// The event.
        event: Event,
        /// The id.
        id: [u8; 16],
        /// The moment, in milliseconds.
        now: u64,
    },
    /// The next action at a connection is taken.
    Take {
        /// The connection.
        conn: u64,
    },
}

/// The answer to a call of the switch.
#[derive(Drop)]
pub enum SwitchAnswer {
    /// The step was made.
    Done,
    /// There was no memory for the step. Nothing changed.
    NoMemory,
    /// The action that was the next, and left the line.
    Next(Action),
    /// Nothing waits, and the connection is open.
    Nothing,
    /// Nothing waits, and the connection is not open.
    Over,
}
