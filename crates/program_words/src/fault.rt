//! Why words say nothing that a program does.

ghost use Rattle.program_words.specs.Faults.{IsMistake};

use chan_values::{NoMemory, Text};
use std::alloc::{AllocError, AllocFailed, Global};

/// Why words say nothing that a program does.
#[derive(Debug, Drop)]
pub enum WordsFault {
    /// They ask for help or for the version, which the text is: for standard output, and status 0.
    Asked(Text),
    /// They are no command line of the program. The text says why: for standard error.
    Usage(Text),
    /// There is no memory.
    NoMemory,
}

impl From<NoMemory> for WordsFault {
    ghost use Rattle.std.specs.Prelude.{◌≡◌};
    ghost use Rattle.program_words.specs.declared.fault.WordsFault.TheVariants as WordsFault;

    ghost from_gives = { λ _ fault. fault ≡ WordsFault.NoMemory };

    fn from(_: NoMemory) -> WordsFault {
        WordsFault::NoMemory
    }
}

impl From<AllocError> for WordsFault {
    ghost use Rattle.std.specs.Prelude.{◌≡◌};
    ghost use Rattle.program_words.specs.declared.fault.WordsFault.TheVariants as WordsFault;

    ghost from_gives = { λ _ fault. fault ≡ WordsFault.NoMemory };

    fn from(_: AllocError) -> WordsFault {
        WordsFault::NoMemory
    }
}

/// The fault of words that clap takes, told to their user.
pub fn wrong(alloc: Global, text: &str) -> WordsFault
    ensures { IsMistake result }
{
    match String::from_str(alloc, text) {
        Ok(text) => WordsFault::Usage(Text::new(text)),
        Err(_) => WordsFault::NoMemory,
    }
}
