//! A run of a plugin over a link in memory.

ghost use Rattle.std.specs.Prelude.{◌≡◌, IfOk, None, false};

use super::coming::{Coming, got_of};
use super::in_threads::InThreads;
use super::taking_session::TakingSession;
use crate::{EndRun, Setup, run_end};
use chan_io::{Dial, FaultyDialer, FaultyEntropy, FaultyLinkIn, FaultyLinkOut, Link, StillClock};
use chan_values::{Bytes, NoMemory, Side, Text};
use session_register::{SessionName, Token, TokenValue};
use session_run::{Gate, Parcel};
use std::alloc::Global;
use std::sync::Wait;
use std::thread::Threads;

/// A reply that accepts, with the digits of the second token.
pub(crate) const ACCEPTED: &str = "{\"Accepted\":true,\"Ended\":false,\
    \"ResumeToken\":\"00000000000000020000000000000008\"}";

/// A reply that refuses.
pub(crate) const REFUSED: &str = "{\"Accepted\":false,\"Ended\":false,\"ResumeToken\":\"\"}";

/// A reply that tells that the session has ended.
pub(crate) const ENDED: &str = "{\"Accepted\":false,\"Ended\":true,\"ResumeToken\":\"\"}";

/// The base that is drawn.
const BASE: [u8; 16] = [0, 1, 2, 3, 4, 5, 6, 7, 8, 9, 10, 11, 12, 13, 14, 15];

/// A run over a link in memory.
pub(crate) type MemoryRun = EndRun<
    FaultyDialer,
    FaultyLinkIn,
    FaultyLinkOut,
    TakingSession,
    FaultyEntropy,
    InThreads,
>;

/// What a run meets.
#[derive(Clone, Copy)]
pub(crate) struct Met {
    /// The replies to its dials, one after another; after the last each dial fails.
    pub(crate) replies: &'static [&'static str],
    /// The dials that fail before.
    pub(crate) missed: &'static [u64],
    /// What comes; after the last each connection is gone at once.
    pub(crate) coming: &'static [Coming],
    /// Whether the draw fails.
    pub(crate) undrawn: bool,
}

/// What the run is set to: the session s-1, the end of the plugin, the token of count 1 and random
/// 7.
fn setup(alloc: Global) -> Result<Setup, NoMemory>
    ensures { IfOk result (λ setup. setup.window ≡ 10) }
{
    let Some(session) = SessionName::new(b"s-1") else {
        return Err(NoMemory);
    };
    Ok(Setup {
        side: Side::Plugin,
        address: Text::new(String::from_str(alloc, "relay")?),
        token: TokenValue {
            session,
            role: Side::Plugin,
            token: Token {
                count: 1,
                random: 7,
            },
        },
        window: 10,
    })
}

/// The link that it meets.
fn link(
    alloc: Global,
    met: &Met,
) -> Result<Link<FaultyDialer, FaultyLinkIn, FaultyLinkOut>, NoMemory> {
    let mut replies = Vec::new(alloc);
    for reply in met.replies {
        replies.push(Bytes::new(Vec::from_slice(alloc, reply.as_bytes())?))?;
    }
    let mut coming = Vec::new(alloc);
    for got in met.coming {
        coming.push(got_of(alloc, *got)?)?;
    }
    Ok(Link {
        dialer: FaultyDialer::new(alloc, replies, Vec::from_slice(alloc, met.missed)?),
        input: FaultyLinkIn::new(alloc, coming, Vec::new(alloc)),
        output: FaultyLinkOut::new(alloc, Vec::new(alloc)),
    })
}

/// What the base is drawn from.
fn entropy(alloc: Global, met: &Met) -> Result<FaultyEntropy, NoMemory> {
    let failing = if met.undrawn {
        Vec::from_slice(alloc, &[0])?
    } else {
        Vec::new(alloc)
    };
    Ok(FaultyEntropy::new(Vec::from_slice(alloc, &[BASE])?, failing))
}

/// The run of this session, whose starts with these numbers fail.
pub(crate) fn run<R: Threads + Wait + Sync, G: Gate>(
    rt: &R,
    alloc: Global,
    met: &Met,
    session: TakingSession,
    unstarted: &'static [u64],
    gate: &G,
) -> Result<MemoryRun, NoMemory>
    requires unbegun { session.begun ≡ false }
    requires none_out { session.out ≡ None }
{
    let setup = setup(alloc)?;
    let link = link(alloc, met)?;
    let entropy = entropy(alloc, met)?;
    let spawner = InThreads::new(alloc, unstarted);
    Ok(run_end(
        rt,
        alloc,
        setup,
        link,
        session,
        &StillClock,
        entropy,
        spawner,
        gate,
    ))
}

/// What a session took, in letters: of an item its bytes, and a point behind the last.
pub(crate) fn letters(alloc: Global, session: &TakingSession) -> Result<String, NoMemory> {
    let mut letters = String::new(alloc);
    for parcel in session.taken.as_slice() {
        match parcel {
            Parcel::Arrived(item) => {
                for byte in item.payload.as_slice() {
                    letters.push(char::from(*byte))?;
                }
            }
            Parcel::Finished => letters.push('.')?,
            Parcel::Over => {}
        }
    }
    Ok(letters)
}

/// Whether a dial was made with this opening.
pub(crate) fn is_opened_with(dials: &[Dial], place: usize, opening: &str) -> bool {
    match dials.get(place) {
        Some(dial) => dial.opening.as_slice() == opening.as_bytes(),
        None => false,
    }
}
