//! Rows as the two tables keep them: texts, integers and bytes that no clause judges.

use chan_values::{Bytes, Text};

/// The columns of one end in `sessions2`: its tokens as bytes, and how often it was opened.
#[derive(Debug, Drop)]
pub struct RawChain {
    /// The last token.
    pub last: Bytes,
    /// The token before it, if there is one.
    pub prev: Option<Bytes>,
    /// How many openings were accepted.
    pub opened: i64,
}

/// A row of `sessions2`.
#[derive(Debug, Drop)]
pub struct RawRow {
    /// The session, which is the key.
    pub session: Text,
    /// Not 0 where it has ended.
    pub ended: i64,
    /// The columns of the plugin.
    pub plugin: RawChain,
    /// The columns of the agent.
    pub agent: RawChain,
}

/// The columns of one end in `sessions`, where no openings are counted.
#[derive(Debug, Drop)]
pub struct RawOldChain {
    /// The last token.
    pub last: Bytes,
    /// The token before it, if there is one.
    pub prev: Option<Bytes>,
}

/// A row of `sessions`.
#[derive(Debug, Drop)]
pub struct RawOldRow {
    /// The session, which is the key.
    pub session: Text,
    /// Not 0 where it has ended.
    pub ended: i64,
    /// The columns of the plugin.
    pub plugin: RawOldChain,
    /// The columns of the agent.
    pub agent: RawOldChain,
}
