//! A generated run as a whole.

ghost use Rattle.std.specs.Prelude.{◌≡◌, ◌≤◌, ◌<◌, ◌+◌, [], ℕ, IfOk};
ghost use Rattle.chan_values.specs.Limits.{max_window};
ghost use Rattle.lab_run.specs.Printing.{Prints, printout};
ghost use Rattle.lab_run.specs.Run.{run};
ghost use Rattle.lab_run.specs.Steps.{world_of};
ghost use Rattle.lab_gen.specs.Counts.{counts_line, counts_of};
ghost use Rattle.lab_gen.specs.Generator.{generated};

use crate::counts::{Counts, counts_line};
use crate::round::{number_after, round_of};
use crate::run::Run;
use chan_io::Sink;
use chan_values::NoMemory;
use lab_run::Stop;
use std::alloc::Global;

/// The most rounds of a generated script.
pub const MAX_ROUNDS: u64 = 1_000_000;

/// The window of both ends.
const WINDOW: u64 = 10_000;

/// Runs the script that these rounds and this start make, and writes one line with what the ends put in
/// and released.
pub fn run_generated<K: Sink>(
    alloc: Global,
    rounds: u64,
    start: u64,
    sink: &mut K,
) -> Result<(), Stop>
    requires { rounds ≤ 1000000 }
    ensures { let counts = counts_of (world_of (run 10000 (generated rounds start))) in
        let at = printout K.output K.faults [] in
        Prints (counts_line rounds counts) result (at sink.old) (at sink.new) }
{
    let counts = count(alloc, WINDOW, rounds, start)?;
    let line = counts_line(alloc, rounds, counts)?;
    sink.write(line.as_bytes())?;
    Ok(())
}

/// What the ends of this window put in and release.
fn count(alloc: Global, window: u64, rounds: u64, start: u64) -> Result<Counts, NoMemory>
    requires low { 1 ≤ window }
    requires high { window ≤ max_window }
    requires few { rounds ≤ 1000000 }
    ensures { IfOk result (λ counts.
        counts ≡ counts_of (world_of (run window (generated rounds start)))) }
{
    let mut run = Run::new(alloc, window)?;
    let mut number = start;
    for round in 0..rounds {
        number = number_after(number);
        run.round(round, round_of(number))?;
    }
    run.settle()?;
    Ok(run.ends.counts())
}
