//! What a link reader remembers.

ghost use Rattle.std.specs.Prelude.{◌≡◌};
ghost use Rattle.session_workers.specs.ReaderSteps.{after_miss, after_opening, first_state};

use chan_values::{Bytes, Text};

/// How many dials may still fail after the first that does.
pub(crate) const TRIES: u64 = 5;

/// How a link reader ended.
#[derive(Debug, Drop)]
pub enum ReadEnd {
    /// It found the end closed.
    Closed,
    /// It wanted memory.
    NoMemory,
    /// A reply did not accept, or did not read: its bytes.
    Refused(Bytes),
    /// Six dials in succession failed.
    LinkLost,
}

/// What a link reader remembers from step to step.
#[derive(Debug, Drop)]
pub struct ReadState {
    /// Whether there is a connection.
    pub up: bool,
    /// Whether there was one.
    pub was_up: bool,
    /// The digits of the token for the next opening.
    pub token: Text,
    /// How many dials may still fail in succession before the one that is the last.
    pub tries: u64,
    /// How it ended; none while it goes on.
    pub over: Option<ReadEnd>,
}

impl ReadState {
    /// Before the first dial, with the digits of the first token.
    pub fn new(token: Text) -> ReadState
        ensures { result ≡ first_state token }
    {
        ReadState {
            up: false,
            was_up: false,
            token,
            tries: TRIES,
            over: None,
        }
    }

    /// Notes that a dial failed.
    pub(crate) fn miss(&mut self)
        ensures { self.new ≡ after_miss self.old }
    {
        if self.tries == 0 {
            self.over = Some(ReadEnd::LinkLost);
        } else {
            self.tries -= 1;
        }
    }

    /// Notes that a connection was made, with the token for the next one.
    pub(crate) fn open(&mut self, token: Text)
        ensures { self.new ≡ after_opening self.old token }
    {
        self.up = true;
        self.was_up = true;
        self.token = token;
        self.tries = TRIES;
    }
}
