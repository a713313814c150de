//! Why a run stopped before its end.

use chan_io::Failed;
use chan_values::NoMemory;

/// Why a run stopped before its end.
#[derive(Clone, Copy, Debug, PartialEq, Eq)]
pub enum Stop {
    /// A write of the report failed.
    Write,
    /// There was no memory.
    NoMemory,
}

impl From<Failed> for Stop {
    ghost use Rattle.std.specs.Prelude.{◌≡◌};
    ghost use Rattle.lab_run.specs.declared.stop.Stop.TheVariants as Stop;

    ghost from_gives = { λ _ stop. stop ≡ Stop.Write };

    fn from(_: Failed) -> Stop {
        Stop::Write
    }
}

impl From<NoMemory> for Stop {
    ghost use Rattle.std.specs.Prelude.{◌≡◌};
    ghost use Rattle.lab_run.specs.declared.stop.Stop.TheVariants as Stop;

    ghost from_gives = { λ _ stop. stop ≡ Stop.NoMemory };

    fn from(_: NoMemory) -> Stop {
        Stop::NoMemory
    }
}
