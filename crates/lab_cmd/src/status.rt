//! How the program ended.

ghost use Rattle.std.specs.Prelude.{◌≡◌};

use crate::input::InputFault;
use crate::script::ScriptFault;
use agent_message::CaptureFault;
use lab_audit::{AuditStop, JournalFault};
use lab_run::Stop;
use lab_show::ShowStop;
use std::fmt;

/// How a run of the lab ended.
#[derive(Clone, Copy, Debug, PartialEq, Eq)]
pub enum Status {
    /// The input was read to its end, and its report or its listing was written.
    Ok,
    /// There was no memory.
    NoMemory,
    /// The words are no command line: the index of the first word that fits none, or the number of
    /// words where they end too early.
    Usage(u64),
    /// The number of the first line that is out of the grammar, from 1.
    Script(u64),
    /// A read of the input failed.
    ReadFault,
    /// A write failed.
    WriteFault,
    /// The input is longer than 67,108,864 bytes.
    TooLong,
    /// The input is no capture, and this is its first fault. The lines of the messages before it were
    /// written.
    BadCapture(CaptureFault),
    /// The input is no journal of a legal and honest world, and this is the first place that shows it.
    BadJournal(JournalFault),
}

impl Status {
    ghost use Rattle.lab_cmd.specs.Statuses.{exit_status_of};

    /// The exit status of the program.
    pub fn number(self) -> u8
        ensures { result ≡ exit_status_of self }
    {
        match self {
            Status::Ok => 0,
            Status::NoMemory => 1,
            Status::Usage(_) => 2,
            Status::Script(_) => 3,
            Status::ReadFault => 4,
            Status::WriteFault => 5,
            Status::TooLong => 6,
            Status::BadCapture(_) => 16,
            Status::BadJournal(_) => 18,
        }
    }
}

impl fmt::Display for Status {
    ghost use Rattle.std.specs.Prelude.{Some};
    ghost use Rattle.lab_cmd.specs.Statuses.{status_text};

    ghost output = { λ status. Some (status_text status) };

    fn fmt<W: fmt::Write>(&self, f: &mut fmt::Formatter<W>) -> fmt::Result {
        let number = self.number();
        write!(f, "lab: status {number} ")?;
        match self {
            Status::Ok => write!(f, "Ok"),
            Status::NoMemory => write!(f, "NoMemory"),
            Status::Usage(k) => write!(f, "Usage {k}"),
            Status::Script(line) => write!(f, "Script {line}"),
            Status::ReadFault => write!(f, "ReadFault"),
            Status::WriteFault => write!(f, "WriteFault"),
            Status::TooLong => write!(f, "TooLong"),
            Status::BadCapture(fault) => {
                let at = fault.at;
                let cause = fault.cause.number();
                write!(f, "BadCapture {at} {cause}")
            }
            Status::BadJournal(fault) => {
                let at = fault.at;
                let why = fault.number();
                write!(f, "BadJournal {at} {why}")
            }
        }
    }
}

impl From<InputFault> for Status {
    ghost use Rattle.std.specs.Prelude.{◌≡◌};
    ghost use Rattle.lab_cmd.specs.Statuses.{status_of_input};

    ghost from_gives = { λ fault status. status ≡ status_of_input fault };

    fn from(fault: InputFault) -> Status {
        match fault {
            InputFault::Read => Status::ReadFault,
            InputFault::TooLong => Status::TooLong,
            InputFault::NoMemory => Status::NoMemory,
        }
    }
}

impl From<ScriptFault> for Status {
    ghost use Rattle.std.specs.Prelude.{◌≡◌};
    ghost use Rattle.lab_cmd.specs.Statuses.{status_of_script};

    ghost from_gives = { λ fault status. status ≡ status_of_script fault };

    fn from(fault: ScriptFault) -> Status {
        match fault {
            ScriptFault::Line(line) => Status::Script(line),
            ScriptFault::NoMemory => Status::NoMemory,
        }
    }
}

impl From<Stop> for Status {
    ghost use Rattle.std.specs.Prelude.{◌≡◌};
    ghost use Rattle.lab_cmd.specs.Statuses.{status_of_stop};

    ghost from_gives = { λ stop status. status ≡ status_of_stop stop };

    fn from(stop: Stop) -> Status {
        match stop {
            Stop::Write => Status::WriteFault,
            Stop::NoMemory => Status::NoMemory,
        }
    }
}

impl From<ShowStop> for Status {
    ghost use Rattle.std.specs.Prelude.{◌≡◌};
    ghost use Rattle.lab_cmd.specs.Statuses.{status_of_show};

    ghost from_gives = { λ stop status. status ≡ status_of_show stop };

    fn from(stop: ShowStop) -> Status {
        match stop {
            ShowStop::Fault(fault) => Status::BadCapture(fault),
            ShowStop::Write => Status::WriteFault,
            ShowStop::NoMemory => Status::NoMemory,
        }
    }
}

impl From<AuditStop> for Status {
    ghost use Rattle.std.specs.Prelude.{◌≡◌};
    ghost use Rattle.lab_cmd.specs.Statuses.{status_of_audit};

    ghost from_gives = { λ stop status. status ≡ status_of_audit stop };

    fn from(stop: AuditStop) -> Status {
        match stop {
            AuditStop::Fault(fault) => Status::BadJournal(fault),
            AuditStop::Write => Status::WriteFault,
            AuditStop::NoMemory => Status::NoMemory,
        }
    }
}
