//! Why the line of a verdict was not written.

use crate::fault::JournalFault;
use chan_io::Failed;
use chan_values::NoMemory;

/// Why a journal got no line.
#[derive(Clone, Copy, Debug, PartialEq, Eq)]
pub enum AuditStop {
    /// It is refused.
    Fault(JournalFault),
    /// The write of the line failed.
    Write,
    /// There was no memory.
    NoMemory,
}

impl From<Failed> for AuditStop {
    ghost use Rattle.std.specs.Prelude.{◌≡◌};
    ghost use Rattle.lab_audit.specs.declared.stop.AuditStop.TheVariants as AuditStop;

    ghost from_gives = { λ _ stop. stop ≡ AuditStop.Write };

    fn from(_: Failed) -> AuditStop {
        AuditStop::Write
    }
}

impl From<NoMemory> for AuditStop {
    ghost use Rattle.std.specs.Prelude.{◌≡◌};
    ghost use Rattle.lab_audit.specs.declared.stop.AuditStop.TheVariants as AuditStop;

    ghost from_gives = { λ _ stop. stop ≡ AuditStop.NoMemory };

    fn from(_: NoMemory) -> AuditStop {
        AuditStop::NoMemory
    }
}
