//! How the worker ends that writes to a connection.

ghost use Rattle.std.specs.Prelude.{◌≡◌, true};
ghost use Rattle.relay_switch.specs.Outlets.{is_last};
ghost use Rattle.relay_run.specs.Ends.{end_of};

use relay_switch::Turned;

/// How the worker ended that writes to a connection.
#[derive(Clone, Copy, Debug, PartialEq, Eq)]
pub enum SendEnd {
    /// The connection was over.
    Over,
    /// A send failed.
    Failed,
    /// There was no memory for a send.
    NoMemory,
    /// The mark of the relay was set.
    Stopped,
}

/// The end behind a last turn.
pub(crate) fn end_of(turned: Turned) -> SendEnd
    requires { is_last turned ≡ true }
    ensures { result ≡ end_of turned }
{
    match turned {
        Turned::Over => SendEnd::Over,
        Turned::Failed => SendEnd::Failed,
        Turned::NoMemory => SendEnd::NoMemory,
        Turned::Sent => unreachable!(),
        Turned::Idle => unreachable!(),
    }
}
