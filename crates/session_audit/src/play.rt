//! The replay of the two ends of a journal, each as far as it goes.

ghost use Rattle.std.specs.Prelude.{◌≡◌, ◌≤◌, IfOk};
ghost use Rattle.chan_values.specs.Limits.{max_window};
ghost use Rattle.session_audit.specs.Playing.{AreActable};
ghost use Rattle.session_audit.specs.Halting.{Halts, Turns};

use crate::reading::Saying;
use crate::seat::Seat;
use chan_values::{NoMemory, Side};
use std::alloc::Global;

/// The two ends of a replay.
#[derive(Drop)]
pub struct Seats {
    pub plugin: Seat,
    pub agent: Seat,
}

/// Replays the sayings of both ends, each as far as it goes. The order between the ends makes no
/// difference.
pub fn play(alloc: Global, window: u64, sayings: &[Saying]) -> Result<Seats, NoMemory>
    requires low { 1 ≤ window }
    requires high { window ≤ max_window }
    requires actable { AreActable sayings.now }
    ensures { IfOk result (λ seats. Halts window sayings.now seats.plugin seats.agent) }
{
    let mut plugin = Seat::new(alloc, Side::Plugin, window)?;
    let mut agent = Seat::new(alloc, Side::Agent, window)?;
    let mut going = true;
    while going {
        going = turn(alloc, &mut plugin, &mut agent, sayings)?;
    }
    Ok(Seats { plugin, agent })
}

/// One act more at each end, where it can; whether one of them could.
fn turn(
    alloc: Global,
    plugin: &mut Seat,
    agent: &mut Seat,
    sayings: &[Saying],
) -> Result<bool, NoMemory>
    requires { AreActable sayings.now }
    ensures { IfOk result (Turns sayings.now plugin.old agent.old plugin.new agent.new) }
{
    let first = plugin.go_on(alloc, agent, Side::Plugin, sayings)?;
    let second = agent.go_on(alloc, plugin, Side::Agent, sayings)?;
    Ok(first || second)
}
