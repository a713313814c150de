//! How the deliverer ends.

ghost use Rattle.std.specs.Prelude.{◌≡◌};
ghost use Rattle.session_delivery.specs.Delivering.{end_of_fault};
ghost use Rattle.session_delivery.specs.Starts.{end_of_refusal};

use session_feeds::SessionFault;

/// How the deliverer ended.
#[derive(Clone, Copy, Debug, PartialEq, Eq)]
pub enum DeliverEnd {
    /// It found the end closed and nothing on the shelf.
    Closed,
    /// The session refused a call for another cause than memory.
    Fault(SessionFault),
    /// Memory was wanted.
    NoMemory,
    /// A worker could not be started.
    NoThread,
}

/// How a deliverer ends that met this refusal of the session.
pub(crate) fn end_of_fault(fault: SessionFault) -> DeliverEnd
    ensures { result ≡ end_of_fault fault }
{
    match fault {
        SessionFault::NoMemory => DeliverEnd::NoMemory,
        fault => DeliverEnd::Fault(fault),
    }
}

/// How a deliverer ends that could not start a worker.
pub(crate) fn end_of_refusal(starved: bool) -> DeliverEnd
    ensures { result ≡ end_of_refusal starved }
{
    if starved {
        DeliverEnd::NoMemory
    } else {
        DeliverEnd::NoThread
    }
}
