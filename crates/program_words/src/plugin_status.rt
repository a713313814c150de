//! How `plugin` ended.

ghost use Rattle.std.specs.Prelude.{◌≡◌};

use crate::why::why_number;
use handshake::Why;
use std::fmt;

/// How a run of `plugin` ended.
#[derive(Clone, Copy, Debug, PartialEq, Eq)]
pub enum PluginStatus {
    /// The session went to its end.
    Ok,
    /// There was no memory.
    NoMemory,
    /// The words are no command line.
    Usage,
    /// The relay refused the opening, or its reply does not read.
    Refused,
    /// A read of the input failed.
    ReadFault,
    /// A write failed.
    WriteFault,
    /// Six dials in succession failed.
    LinkLost,
    /// The end gave up on the message with this number.
    GaveUp(u64),
    /// The handshake refused an item.
    Handshake(Why),
    /// A thread could not be started.
    NoThread,
    /// A port failed.
    PortFault,
    /// No random bytes could be drawn.
    EntropyFault,
    /// The session was ended before the handshake was done.
    NoAgreement,
    /// The bytes of the streams have their first fault at this place.
    Frames(u64),
}

impl PluginStatus {
    ghost use Rattle.program_words.specs.Statuses.{plugin_number};

    /// The exit status of the program.
    pub fn number(self) -> u8
        ensures { result ≡ plugin_number self }
    {
        match self {
            PluginStatus::Ok => 0,
            PluginStatus::NoMemory => 1,
            PluginStatus::Usage => 2,
            PluginStatus::Refused => 3,
            PluginStatus::ReadFault => 4,
            PluginStatus::WriteFault => 5,
            PluginStatus::LinkLost => 7,
            PluginStatus::GaveUp(_) => 8,
            PluginStatus::Handshake(_) => 9,
            PluginStatus::NoThread => 10,
            PluginStatus::PortFault => 12,
            PluginStatus::EntropyFault => 15,
            PluginStatus::NoAgreement => 17,
            PluginStatus::Frames(_) => 19,
        }
    }
}

impl fmt::Display for PluginStatus {
    ghost use Rattle.std.specs.Prelude.{Some};
    ghost use Rattle.program_words.specs.Statuses.{plugin_line};

    ghost output = { λ status. Some (plugin_line status) };

    fn fmt<W: fmt::Write>(&self, f: &mut fmt::Formatter<W>) -> fmt::Result {
        let number = self.number();
        write!(f, "plugin: status {number} ")?;
        match self {
            PluginStatus::Ok => write!(f, "Ok"),
            PluginStatus::NoMemory => write!(f, "NoMemory"),
            PluginStatus::Usage => write!(f, "Usage"),
            PluginStatus::Refused => write!(f, "Refused"),
            PluginStatus::ReadFault => write!(f, "ReadFault"),
            PluginStatus::WriteFault => write!(f, "WriteFault"),
            PluginStatus::LinkLost => write!(f, "LinkLost"),
            PluginStatus::GaveUp(seq) => write!(f, "GaveUp {seq}"),
            PluginStatus::Handshake(why) => {
                let why = why_number(*why);
                write!(f, "Handshake {why}")
            }
            PluginStatus::NoThread => write!(f, "NoThread"),
            PluginStatus::PortFault => write!(f, "PortFault"),
            PluginStatus::EntropyFault => write!(f, "EntropyFault"),
            PluginStatus::NoAgreement => write!(f, "NoAgreement"),
            PluginStatus::Frames(at) => write!(f, "Frames {at}"),
        }
    }
}
