//! What the register answers.

use crate::token::Token;

/// The answer to a creation.
#[derive(Clone, Copy, Debug, PartialEq, Eq)]
pub enum Created {
    /// The first tokens of the plugin and of the agent.
    New(Token, Token),
    /// The session is there already.
    Exists,
}

/// The answer to an opening.
#[derive(Clone, Copy, Debug, PartialEq, Eq)]
pub enum Open {
    /// There is no such session.
    NoSession,
    /// The token is neither the last of its chain nor the one before.
    BadToken,
    /// The session has ended.
    Ended,
    /// The chain has no more numbers.
    Spent,
    /// The token that opens next, a new one.
    Successor(Token),
    /// The token that opens next, which was given before.
    Same(Token),
}

/// The answer to an end.
#[derive(Clone, Copy, Debug, PartialEq, Eq)]
pub enum Closing {
    /// The session has ended.
    Done,
    /// There is no such session.
    NoSession,
}
