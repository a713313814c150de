//! How `agent` ended.

ghost use Rattle.std.specs.Prelude.{◌≡◌};

use crate::why::why_number;
use handshake::Why;
use std::fmt;

/// How a run of `agent` ended.
#[derive(Clone, Copy, Debug, PartialEq, Eq)]
pub enum AgentStatus {
    /// The session went to its end.
    Ok,
    /// There was no memory.
    NoMemory,
    /// The words are no command line.
    Usage,
    /// The relay refused the opening, or its reply does not read.
    Refused,
    /// Six dials in succession failed.
    LinkLost,
    /// The end gave up on the message with this number.
    GaveUp(u64),
    /// The handshake refused an item.
    Handshake(Why),
    /// A thread could not be started.
    NoThread,
    /// The program could not be started.
    NoChild,
    /// A port failed.
    PortFault,
    /// A pipe of the program failed, or its end could not be had.
    ChildFault,
    /// No random bytes could be drawn.
    EntropyFault,
    /// The session was ended before the handshake was done.
    NoAgreement,
    /// The bytes of the streams have their first fault at this place.
    Frames(u64),
}

impl AgentStatus {
    ghost use Rattle.program_words.specs.Statuses.{agent_number};

    /// The exit status of the program.
    pub fn number(self) -> u8
        ensures { result ≡ agent_number self }
    {
        match self {
            AgentStatus::Ok => 0,
            AgentStatus::NoMemory => 1,
            AgentStatus::Usage => 2,
            AgentStatus::Refused => 3,
            AgentStatus::LinkLost => 7,
            AgentStatus::GaveUp(_) => 8,
            AgentStatus::Handshake(_) => 9,
            AgentStatus::NoThread => 10,
            AgentStatus::NoChild => 11,
            AgentStatus::PortFault => 12,
            AgentStatus::ChildFault => 13,
            AgentStatus::EntropyFault => 15,
            AgentStatus::NoAgreement => 17,
            AgentStatus::Frames(_) => 19,
        }
    }
}

impl fmt::Display for AgentStatus {
    ghost use Rattle.std.specs.Prelude.{Some};
    ghost use Rattle.program_words.specs.Statuses.{agent_line};

    ghost output = { λ status. Some (agent_line status) };

    fn fmt<W: fmt::Write>(&self, f: &mut fmt::Formatter<W>) -> fmt::Result {
        let number = self.number();
        write!(f, "agent: status {number} ")?;
        match self {
            AgentStatus::Ok => write!(f, "Ok"),
            AgentStatus::NoMemory => write!(f, "NoMemory"),
            AgentStatus::Usage => write!(f, "Usage"),
            AgentStatus::Refused => write!(f, "Refused"),
            AgentStatus::LinkLost => write!(f, "LinkLost"),
            AgentStatus::GaveUp(seq) => write!(f, "GaveUp {seq}"),
            AgentStatus::Handshake(why) => {
                let why = why_number(*why);
                write!(f, "Handshake {why}")
            }
            AgentStatus::NoThread => write!(f, "NoThread"),
            AgentStatus::NoChild => write!(f, "NoChild"),
            AgentStatus::PortFault => write!(f, "PortFault"),
            AgentStatus::ChildFault => write!(f, "ChildFault"),
            AgentStatus::EntropyFault => write!(f, "EntropyFault"),
            AgentStatus::NoAgreement => write!(f, "NoAgreement"),
            AgentStatus::Frames(at) => write!(f, "Frames {at}"),
        }
    }
}
