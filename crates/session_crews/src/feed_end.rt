//! How a feeder's worker ends.

ghost use Rattle.std.specs.Prelude.{◌≡◌, Some, [], if◌then◌else◌};
ghost use Rattle.session_crews.specs.FeedTurns.{closing, either, end_of_put, refusal_of, refused_end};
ghost use Rattle.session_crews.specs.declared.feed_end.FeedEnd.{FeedEnd};

use channel_core::Put;

/// How the worker of a feeder ended.
#[derive(Clone, Copy, Debug, PartialEq, Eq)]
pub enum FeedEnd {
    /// Its feeder gave all, and that stands on the shelf.
    Over,
    /// Its feeder failed.
    Failed,
    /// A put was stopped, or a look showed the end closed.
    Stopped,
    /// Memory was wanted.
    NoMemory,
    /// A worker could not be started.
    NoThread,
}

/// The refusals with which workers of feeders ended.
#[derive(Clone, Copy, Debug, PartialEq, Eq)]
pub struct Refusals {
    /// Memory was wanted.
    pub no_memory: bool,
    /// A feeder failed.
    pub failed: bool,
    /// A worker could not be started.
    pub no_thread: bool,
}

impl Refusals {
    /// None.
    pub const NONE: Refusals = Refusals {
        no_memory: false,
        failed: false,
        no_thread: false,
    };

    /// The refusal of this ending, if it is one.
    pub fn of(end: FeedEnd) -> Refusals
        ensures { result ≡ refusal_of (Some end) }
    {
        let mut all = Refusals::NONE;
        match end {
            FeedEnd::NoMemory => all.no_memory = true,
            FeedEnd::Failed => all.failed = true,
            FeedEnd::NoThread => all.no_thread = true,
            FeedEnd::Over | FeedEnd::Stopped => {}
        }
        all
    }

    /// These and those.
    pub fn with(self, other: Refusals) -> Refusals
        ensures { result ≡ either self other }
    {
        Refusals {
            no_memory: self.no_memory || other.no_memory,
            failed: self.failed || other.failed,
            no_thread: self.no_thread || other.no_thread,
        }
    }
}

/// Whether a worker that ends so closes the end.
pub(crate) fn is_refusal(end: FeedEnd) -> bool
    ensures { closing (Some end)
        ≡ (if result then closing (Some FeedEnd.NoMemory) else []) }
{
    match end {
        FeedEnd::Failed | FeedEnd::NoMemory | FeedEnd::NoThread => true,
        FeedEnd::Over | FeedEnd::Stopped => false,
    }
}

/// How a worker ends that could not start another: for want of memory, or of a thread.
pub(crate) fn refused_end(starved: bool) -> FeedEnd
    ensures { result ≡ refused_end starved }
{
    if starved {
        FeedEnd::NoMemory
    } else {
        FeedEnd::NoThread
    }
}

/// How a worker ends after such a put, if it does.
pub(crate) fn end_of_put(put: &Put) -> Option<FeedEnd>
    ensures { result ≡ end_of_put put.now }
{
    match put {
        Put::Seq(_) => None,
        Put::Closed(_) | Put::Past(_) | Put::Spent(_) | Put::Full(_) => Some(FeedEnd::Stopped),
    }
}
