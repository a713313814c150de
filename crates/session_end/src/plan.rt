//! What is made before the workers are, so that no memory is wanted once the first is started.

ghost use Rattle.std.specs.Prelude.{◌≡◌, ◌≤◌, IfOk};
ghost use Rattle.session_end.specs.Plans.{IsPlanOf};

use crate::setup::{Setup, digits_text};
use chan_values::{NoMemory, Text};
use session_run::{Held, Shelf};
use session_workers::LinkSetting;
use std::alloc::Global;
use std::sync::atomic::AtomicU32;
use turn_lock::{Seat, TurnLock};

/// The number of the first worker of a feeder. Those of the other workers come before.
const FIRST_FEEDER: u32 = 4;

/// What the workers of a run share.
#[derive(Drop)]
pub(crate) struct Shared {
    /// The lock over the end.
    pub ends: TurnLock<Held>,
    /// The lock over the shelf.
    pub shelf: TurnLock<Shelf>,
    /// From which the numbers of further workers are drawn.
    pub numbers: AtomicU32,
    /// What was drawn for the ids of the run.
    pub base: [u8; 16],
}

/// What the workers share, the first seats of the locks, and what the openings say.
#[derive(Drop)]
pub(crate) struct Plan {
    /// What stays the same in all openings.
    pub setting: LinkSetting,
    /// The digits of the token of the first opening.
    pub token: Text,
    /// What the workers share.
    pub shared: Shared,
    /// The first seat on the lock over the end.
    pub main: Seat<Held>,
    /// The first seat on the lock over the shelf.
    pub shelf_main: Seat<Shelf>,
}

impl Plan {
    /// The plan of a run with this base.
    pub(crate) fn new(alloc: Global, setup: Setup, base: [u8; 16]) -> Result<Plan, NoMemory>
        requires low { 1 ≤ setup.window }
        requires high { setup.window ≤ 10000 }
        ensures { IfOk result (IsPlanOf setup base) }
    {
        let token = digits_text(alloc, setup.token.token)?;
        let (ends, main) = TurnLock::new(alloc, Held::new(alloc, setup.side, setup.window)?)?;
        let (shelf, shelf_main) = TurnLock::new(alloc, Shelf::new(alloc))?;
        let setting = setup.setting(alloc, base)?;
        Ok(Plan {
            setting,
            token,
            shared: Shared {
                ends,
                shelf,
                numbers: AtomicU32::new(FIRST_FEEDER),
                base,
            },
            main,
            shelf_main,
        })
    }
}
