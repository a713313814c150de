//! What is told of a generated run.

ghost use Rattle.std.specs.Prelude.{◌≡◌, IfOk, string_bytes};
ghost use Rattle.lab_gen.specs.Counts.{counts_line};

use chan_values::NoMemory;
use std::alloc::Global;

/// How many items the user of each end put in, and how many each end released.
#[derive(Clone, Copy, Debug)]
pub struct Counts {
    pub put_by_plugin: u64,
    pub put_by_agent: u64,
    pub released_by_agent: u64,
    pub released_by_plugin: u64,
}

/// The line that tells the counts of a run of so many rounds.
pub(crate) fn counts_line(alloc: Global, rounds: u64, counts: Counts) -> Result<String, NoMemory>
    ensures { IfOk result (λ line. string_bytes line ≡ counts_line rounds counts) }
{
    let Counts {
        put_by_plugin,
        put_by_agent,
        released_by_agent,
        released_by_plugin,
    } = counts;
    Ok(format!(in alloc;
        "gen {rounds} put P {put_by_plugin} A {put_by_agent} \
         released A {released_by_agent} P {released_by_plugin}\n"
    )?)
}
