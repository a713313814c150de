//! Why the answer to an item is no item.

use crate::step::Why;
use chan_values::NoMemory;
use json_bodies::BodyFault;

/// Why the answer to an item is no item.
#[derive(Debug, Drop)]
pub(crate) enum Stop {
    /// The item is refused.
    Refused(Why),
    /// There was no memory.
    NoMemory,
}

impl From<BodyFault> for Stop {
    ghost use Rattle.std.specs.Prelude.{◌≡◌};
    ghost use Rattle.handshake.specs.Stops.{stop_of};

    ghost from_gives = { λ fault stop. stop ≡ stop_of fault };

    fn from(fault: BodyFault) -> Stop {
        match fault {
            BodyFault::NoMemory => Stop::NoMemory,
            fault => Stop::Refused(Why::Body(fault)),
        }
    }
}

impl From<NoMemory> for Stop {
    ghost use Rattle.std.specs.Prelude.{◌≡◌};
    ghost use Rattle.handshake.specs.declared.stop.Stop.TheVariants.{NoMemory as no_memory};

    ghost from_gives = { λ _ stop. stop ≡ no_memory };

    fn from(_: NoMemory) -> Stop {
        Stop::NoMemory
    }
}
