//! Why a listing ended before the end of its capture, or was not written.

use agent_message::CaptureFault;
use chan_io::{Failed, IoFault};
use chan_values::NoMemory;

/// Why a capture was not shown to its end.
#[derive(Clone, Copy, Debug, PartialEq, Eq)]
pub enum ShowStop {
    /// The capture has this fault. The lines of the messages before it were written.
    Fault(CaptureFault),
    /// A write of the lines failed.
    Write,
    /// There was no memory.
    NoMemory,
}

impl From<NoMemory> for ShowStop {
    ghost use Rattle.std.specs.Prelude.{◌≡◌};
    ghost use Rattle.lab_show.specs.declared.stop.ShowStop.TheVariants as ShowStop;

    ghost from_gives = { λ _ stop. stop ≡ ShowStop.NoMemory };

    fn from(_: NoMemory) -> ShowStop {
        ShowStop::NoMemory
    }
}

impl From<IoFault> for ShowStop {
    ghost use Rattle.std.specs.Prelude.{◌≡◌};
    ghost use Rattle.lab_show.specs.Listings.{stop_of};

    ghost from_gives = { λ fault stop. stop ≡ stop_of fault };

    fn from(fault: IoFault) -> ShowStop {
        match fault {
            IoFault::Failed => ShowStop::Write,
            IoFault::NoMemory => ShowStop::NoMemory,
        }
    }
}
