//! How a worker of a relay ends.

ghost use Rattle.std.specs.Prelude.{◌≡◌};
ghost use Rattle.relay_accept.specs.Ends.{end_of_reading, end_of_sending, least, rank};

use relay_desk::Heard;
use relay_run::SendEnd;

/// How a worker of a relay ended. All but `Over` end the relay.
#[derive(Clone, Copy, Debug, PartialEq, Eq)]
pub enum RunEnd {
    /// There was no memory.
    NoMemory,
    /// A thread could not be started.
    NoThread,
    /// The ports failed.
    Port,
    /// The register's store failed.
    Store,
    /// A draw failed.
    Entropy,
    /// Another worker had ended with a refusal.
    Stopped,
    /// All that it had to do was done.
    Over,
}

impl RunEnd {
    /// The place among the ends, of which the first is told.
    fn rank(self) -> u8
        ensures { result ≡ rank self }
    {
        match self {
            RunEnd::NoMemory => 0,
            RunEnd::NoThread => 1,
            RunEnd::Port => 2,
            RunEnd::Store => 3,
            RunEnd::Entropy => 4,
            RunEnd::Stopped => 5,
            RunEnd::Over => 6,
        }
    }

    /// Of two ends the one that is told.
    pub fn least(self, other: RunEnd) -> RunEnd
        ensures { result ≡ least self other }
    {
        if self.rank() <= other.rank() {
            self
        } else {
            other
        }
    }
}

/// What the last turn of a reading worker comes to.
pub(crate) fn end_of_reading(heard: Heard) -> RunEnd
    ensures { result ≡ end_of_reading heard }
{
    match heard {
        Heard::Store => RunEnd::Store,
        Heard::Entropy => RunEnd::Entropy,
        Heard::NoMemory => RunEnd::NoMemory,
        Heard::Opened => RunEnd::Over,
        Heard::Binary => RunEnd::Over,
        Heard::Ended => RunEnd::Over,
        Heard::Passed => RunEnd::Over,
        Heard::Gone => RunEnd::Over,
    }
}

/// What the end of a writing worker comes to. A failed send ends its connection alone.
pub(crate) fn end_of_sending(end: SendEnd) -> RunEnd
    ensures { result ≡ end_of_sending end }
{
    match end {
        SendEnd::Over => RunEnd::Over,
        SendEnd::Failed => RunEnd::Over,
        SendEnd::NoMemory => RunEnd::NoMemory,
        SendEnd::Stopped => RunEnd::Stopped,
    }
}
