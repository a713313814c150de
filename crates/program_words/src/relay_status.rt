//! How `relay` ended.

ghost use Rattle.std.specs.Prelude.{◌≡◌};

use std::fmt;

/// How a run of `relay` ended.
#[derive(Clone, Copy, Debug, PartialEq, Eq)]
pub enum RelayStatus {
    /// All sessions have ended, and no connection lives.
    Ok,
    /// There was no memory.
    NoMemory,
    /// The words are no command line.
    Usage,
    /// A write failed.
    WriteFault,
    /// A thread could not be started.
    NoThread,
    /// A port failed.
    PortFault,
    /// The store of the sessions failed.
    StoreFault,
    /// No random bytes could be drawn.
    EntropyFault,
}

impl RelayStatus {
    ghost use Rattle.program_words.specs.Statuses.{relay_number};

    /// The exit status of the program.
    pub fn number(self) -> u8
        ensures { result ≡ relay_number self }
    {
        match self {
            RelayStatus::Ok => 0,
            RelayStatus::NoMemory => 1,
            RelayStatus::Usage => 2,
            RelayStatus::WriteFault => 5,
            RelayStatus::NoThread => 10,
            RelayStatus::PortFault => 12,
            RelayStatus::StoreFault => 14,
            RelayStatus::EntropyFault => 15,
        }
    }
}

impl fmt::Display for RelayStatus {
    ghost use Rattle.std.specs.Prelude.{Some};
    ghost use Rattle.program_words.specs.Statuses.{relay_line};

    ghost output = { λ status. Some (relay_line status) };

    fn fmt<W: fmt::Write>(&self, f: &mut fmt::Formatter<W>) -> fmt::Result {
        let number = self.number();
        write!(f, "relay: status {number} ")?;
        match self {
            RelayStatus::Ok => write!(f, "Ok"),
            RelayStatus::NoMemory => write!(f, "NoMemory"),
            RelayStatus::Usage => write!(f, "Usage"),
            RelayStatus::WriteFault => write!(f, "WriteFault"),
            RelayStatus::NoThread => write!(f, "NoThread"),
            RelayStatus::PortFault => write!(f, "PortFault"),
            RelayStatus::StoreFault => write!(f, "StoreFault"),
            RelayStatus::EntropyFault => write!(f, "EntropyFault"),
        }
    }
}
