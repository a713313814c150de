//! Messages as bytes: what an end emits is encoded, and what comes to it is decoded.

mod decode;
mod encode;
#[cfg(test)]
mod tests;

use agent_message::{Name, Refusal};
pub use decode::incoming;
pub use encode::outgoing;
use json_bodies::BodyFault;

/// Why bytes are not heard: the first cause, in the order of the variants.
#[derive(Clone, Copy, Debug, PartialEq, Eq)]
pub enum InRefusal {
    /// They spell no sound message.
    Message(Refusal),
    /// The payload of an acknowledgement or of a closing is not its body.
    Body(BodyFault),
    /// Messages of this name do not go to this side.
    Wrong(Name),
    /// The number of a stream message or of an acknowledgement is below 0.
    Negative(i64),
    /// There was no memory for what they say.
    NoMemory,
}

impl From<Refusal> for InRefusal {
    ghost use Rattle.std.specs.Prelude.{◌≡◌};
    ghost use Rattle.channel_core.specs.Arrival.{refusal_of};

    ghost from_gives = { λ from refusal. refusal ≡ refusal_of from };

    fn from(refusal: Refusal) -> InRefusal {
        match refusal {
            Refusal::NoMemory => InRefusal::NoMemory,
            refusal => InRefusal::Message(refusal),
        }
    }
}

impl From<BodyFault> for InRefusal {
    ghost use Rattle.std.specs.Prelude.{◌≡◌};
    ghost use Rattle.channel_core.specs.Arrival.{refusal_of_body};

    ghost from_gives = { λ from refusal. refusal ≡ refusal_of_body from };

    fn from(fault: BodyFault) -> InRefusal {
        match fault {
            BodyFault::NoMemory => InRefusal::NoMemory,
            fault => InRefusal::Body(fault),
        }
    }
}
