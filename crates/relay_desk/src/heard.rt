//! What a turn of a reading worker comes to.

ghost use Rattle.std.specs.Prelude.{◌≡◌};
ghost use Rattle.relay_desk.specs.Hearing.{is_last_heard, store_end};

use chan_io::IoFault;

/// What a turn came to.
#[derive(Clone, Copy, Debug, PartialEq, Eq)]
pub enum Heard {
    /// The opening was stepped.
    Opened,
    /// A binary message was stepped.
    Binary,
    /// The end of the session was stepped.
    Ended,
    /// A text was passed over.
    Passed,
    /// The loss of the connection was stepped.
    Gone,
    /// The register's store failed.
    Store,
    /// The draw failed.
    Entropy,
    /// There was no memory.
    NoMemory,
}

/// Whether a turn that came to this is the last.
pub(crate) fn is_last_heard(heard: Heard) -> bool
    ensures { result ≡ is_last_heard heard }
{
    !matches!(
        heard,
        Heard::Opened | Heard::Binary | Heard::Ended | Heard::Passed
    )
}

/// What a failure of the register comes to.
pub(crate) fn store_end(fault: IoFault) -> Heard
    ensures { result ≡ store_end fault }
{
    match fault {
        IoFault::Failed => Heard::Store,
        IoFault::NoMemory => Heard::NoMemory,
    }
}
