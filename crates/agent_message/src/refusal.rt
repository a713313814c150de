//! Why bytes are no message.

ghost use Rattle.std.specs.Prelude.{◌≡◌};

use std::alloc::AllocError;

/// What is wrong with the bytes of a message: the first fault, in the order of the variants.
#[derive(Clone, Copy, Debug, PartialEq, Eq)]
pub enum Refusal {
    /// There are fewer than 120 bytes.
    Short(usize),
    /// The header length, which isn't 116.
    HeaderLength(u32),
    /// The offset at which the name field has neither name nor filler.
    Name(usize),
    /// PayloadLength isn't the number of bytes behind it.
    Length { said: u32, have: usize },
    /// PayloadLength is above 65,536.
    TooLong(u32),
    /// CreatedDate is 0, in a message that is no pause or start.
    Date,
    /// PayloadDigest isn't the SHA-256 of the payload, which isn't empty, in a message that is no
    /// pause or start.
    Digest { said: [u8; 32], computed: [u8; 32] },
    /// There was no memory for the message.
    NoMemory,
}

impl Refusal {
    ghost use Rattle.agent_message.specs.Refusals.{number_of};

    /// The place of the fault in the order, from 1 to 7. Want of memory is 8.
    pub fn number(&self) -> u8
        ensures { result ≡ number_of self.now }
    {
        match self {
            Refusal::Short(_) => 1,
            Refusal::HeaderLength(_) => 2,
            Refusal::Name(_) => 3,
            Refusal::Length { .. } => 4,
            Refusal::TooLong(_) => 5,
            Refusal::Date => 6,
            Refusal::Digest { .. } => 7,
            Refusal::NoMemory => 8,
        }
    }
}

impl From<AllocError> for Refusal {
    ghost use Rattle.agent_message.specs.declared.refusal.Refusal.TheVariants.{NoMemory};

    ghost from_gives = { λ _ e. e ≡ NoMemory };

    fn from(_: AllocError) -> Refusal {
        Refusal::NoMemory
    }
}
