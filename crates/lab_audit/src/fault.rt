//! Why a journal is refused.

ghost use Rattle.std.specs.Prelude.{◌≡◌};
ghost use Rattle.lab_audit.specs.Lines.{why_number};

use session_audit::Why;

/// The first thing that is wrong with a journal.
#[derive(Clone, Copy, Debug, PartialEq, Eq)]
pub struct JournalFault {
    /// The offset of a record.
    pub at: u64,
    /// What is wrong with it.
    pub why: Why,
}

impl JournalFault {
    /// The number of its reason.
    pub fn number(&self) -> u64
        ensures { result ≡ why_number self.now.why }
    {
        match self.why {
            Why::Size(_) => 1,
            Why::WrongEnd(_) => 2,
            Why::Kind(_) => 3,
            Why::Extra(_) => 4,
            Why::Message(_) => 5,
            Why::Cut(_) => 6,
            Why::NotEmitted => 7,
            Why::Unheard => 8,
        }
    }
}
