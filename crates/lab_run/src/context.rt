//! What a step needs beside the ends.

ghost use Rattle.std.specs.Prelude.{◌≤◌};
ghost use Rattle.chan_values.specs.Limits.{max_window};

use std::alloc::Global;

/// Where a run stands: what a step needs beside the ends and the report.
#[derive(Drop)]
pub struct Context {
    pub alloc: Global,
    /// The window of each end, in messages.
    pub window: u64,
    /// The moment, in milliseconds.
    pub moment: u64,
    /// The number of the line, from 1.
    pub line: u64,
    pub ghost in_range: { window ≤ max_window },
}
