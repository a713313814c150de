//! What a link reader meets, as rows of a table.

use super::coming::{Coming, got_of};
use crate::{LinkSetting, ReadEnd};
use chan_io::{FaultyDialer, FaultyLinkIn};
use chan_values::{Bytes, NoMemory, Side, Text};
use std::alloc::Global;

/// The digits of the first token.
pub(crate) const FIRST: &str = "00000000000000010000000000000007";

/// A reply that accepts, with the digits of the second token.
pub(crate) const ACCEPTED: &str = "{\"Accepted\":true,\"Ended\":false,\
    \"ResumeToken\":\"00000000000000020000000000000008\"}";

/// The same, with those of the third.
pub(crate) const AGAIN: &str = "{\"Accepted\":true,\"Ended\":false,\
    \"ResumeToken\":\"00000000000000030000000000000009\"}";

/// A reply that refuses.
pub(crate) const REFUSED: &str = "{\"Accepted\":false,\"Ended\":false,\"ResumeToken\":\"\"}";

/// A reply that tells that the session has ended.
pub(crate) const ENDED: &str = "{\"Accepted\":false,\"Ended\":true,\"ResumeToken\":\"\"}";

/// How a reader ends.
#[derive(Clone, Copy)]
pub(crate) enum Over {
    Closed,
    Refused,
    LinkLost,
}

/// What a link reader meets, with a window of one message, and what it comes to.
#[derive(Clone, Copy)]
pub(crate) struct Case {
    pub(crate) what: &'static str,
    /// The replies to its dials, one after another; after the last each dial fails.
    pub(crate) replies: &'static [&'static str],
    /// The dials that fail before.
    pub(crate) missed: &'static [u64],
    /// What comes; after the last each connection is gone at once.
    pub(crate) coming: &'static [Coming],
    /// The receives that fail.
    pub(crate) failed: &'static [u64],
    pub(crate) over: Over,
    /// How many dials were made.
    pub(crate) dials: usize,
    /// How many connections were noted.
    pub(crate) openings: u64,
    /// The parcels: of an item its byte, and a point behind the last.
    pub(crate) parcels: &'static str,
}

/// A reader whose one connection is gone at once, and which is lost then.
pub(crate) const GONE: Case = Case {
    what: "gone at once",
    replies: &[ACCEPTED],
    missed: &[],
    coming: &[],
    failed: &[],
    over: Over::LinkLost,
    dials: 7,
    openings: 1,
    parcels: "",
};

/// A text of these letters.
pub(crate) fn text_of(alloc: Global, letters: &str) -> Result<Text, NoMemory> {
    Ok(Text::new(String::from_str(alloc, letters)?))
}

/// What the reader of a plugin is set to.
pub(crate) fn setting(alloc: Global) -> Result<LinkSetting, NoMemory> {
    Ok(LinkSetting {
        side: Side::Plugin,
        window: 1,
        address: text_of(alloc, "relay")?,
        client: text_of(alloc, "c")?,
        session: text_of(alloc, "s-1")?,
        role: Side::Plugin,
    })
}

/// The dialer of a case.
pub(crate) fn dialer_of(alloc: Global, case: &Case) -> Result<FaultyDialer, NoMemory> {
    let mut replies = Vec::new(alloc);
    for reply in case.replies {
        replies.push(Bytes::new(Vec::from_slice(alloc, reply.as_bytes())?))?;
    }
    Ok(FaultyDialer::new(alloc, replies, Vec::from_slice(alloc, case.missed)?))
}

/// The link of a case.
pub(crate) fn input_of(alloc: Global, case: &Case) -> Result<FaultyLinkIn, NoMemory> {
    let mut coming = Vec::new(alloc);
    for got in case.coming {
        coming.push(got_of(alloc, *got)?)?;
    }
    Ok(FaultyLinkIn::new(alloc, coming, Vec::from_slice(alloc, case.failed)?))
}

/// Whether a reader ended so.
pub(crate) fn is_over(over: &Option<ReadEnd>, expected: Over) -> bool {
    match (over, expected) {
        (Some(ReadEnd::Closed), Over::Closed) => true,
        (Some(ReadEnd::Refused(_)), Over::Refused) => true,
        (Some(ReadEnd::LinkLost), Over::LinkLost) => true,
        _ => false,
    }
}
