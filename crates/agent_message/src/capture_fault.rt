//! Why bytes are no capture.

use crate::refusal::Refusal;

/// The first fault of a capture.
#[derive(Clone, Copy, Debug, PartialEq, Eq)]
pub struct CaptureFault {
    /// Where the piece that shows it begins, counted from 0. 2^64 - 1 stands for each later place
    /// too.
    pub at: u64,
    /// What is wrong with that piece.
    pub cause: CaptureCause,
}

/// What is wrong with a piece of a capture.
#[derive(Clone, Copy, Debug, PartialEq, Eq)]
pub enum CaptureCause {
    /// Its length is above 65,656. Told at its fourth byte.
    Size(u32),
    /// Its message is refused. Told at its last byte.
    Message(Refusal),
    /// The capture ends in it, behind so many of its bytes.
    Cut(usize),
}

impl CaptureCause {
    ghost use Rattle.std.specs.Prelude.{◌≡◌};
    ghost use Rattle.agent_message.specs.CaptureCauses.{cause_number};

    /// The place of the cause in the order of the variants, from 1 to 3.
    pub fn number(&self) -> u8
        ensures { result ≡ cause_number self.now }
    {
        match self {
            CaptureCause::Size(_) => 1,
            CaptureCause::Message(_) => 2,
            CaptureCause::Cut(_) => 3,
        }
    }
}
