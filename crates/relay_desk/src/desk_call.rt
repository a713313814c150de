//! The calls of a desk and their answers.

use chan_io::{Failed, IoFault};
use chan_values::Side;
use session_register::{Closing, Created, Open, SessionName, Token};

/// A call of the desk.
#[derive(Clone, Copy, Debug)]
pub enum DeskCall {
    /// A session is made.
    Create {
        /// The session.
        session: SessionName,
        /// The drawn number of the plugin's first token.
        plugin: u64,
        /// The drawn number of the agent's first token.
        agent: u64,
    },
    /// A session is opened.
    Open {
        /// The session.
        session: SessionName,
        /// The end that opens it.
        role: Side,
        /// The token that it shows.
        token: Token,
        /// The drawn number of the next token.
        fresh: u64,
    },
    /// A session is ended.
    End {
        /// The session.
        session: SessionName,
    },
    /// It is asked whether a session has ended.
    Ended {
        /// The session.
        session: SessionName,
    },
    /// Random bytes are drawn.
    Draw,
}

/// The answer to the call of the same name.
#[derive(Clone, Copy, Debug)]
pub enum DeskAnswer {
    /// What the register answered.
    Create(Result<Created, IoFault>),
    /// What the register answered.
    Open(Result<Open, IoFault>),
    /// What the register answered.
    End(Result<Closing, IoFault>),
    /// What the register answered.
    Ended(Result<Option<bool>, IoFault>),
    /// The bytes.
    Draw(Result<[u8; 16], Failed>),
}
