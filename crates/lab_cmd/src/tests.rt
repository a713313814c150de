//! Runs of the program over fakes of the outside.

mod ends;
mod journals;
mod listings;
mod relayed;
mod reports;
mod statuses;
mod streams;
mod verdicts;

use crate::{Status, lab};
use chan_io::{FaultySink, FaultySource};
use chan_values::Word;
use std::alloc::Global;
use std::test::Fail;

/// The status of a script, with what was written.
pub fn run(alloc: Global, script: &str) -> Result<(Status, FaultySink), Fail> {
    run_with(alloc, "", script)
}

/// The same, with the words of a command line.
pub fn run_with(alloc: Global, line: &str, script: &str) -> Result<(Status, FaultySink), Fail> {
    run_bytes(alloc, line, script.as_bytes())
}

/// The status of an input of bytes, with what was written.
pub fn run_bytes(alloc: Global, line: &str, input: &[u8]) -> Result<(Status, FaultySink), Fail> {
    let mut words = Vec::new(alloc);
    for word in line.split_whitespace() {
        words.push(Word::new(String::from_str(alloc, word)?))?;
    }
    let content = Vec::from_slice(alloc, input)?;
    let mut source = FaultySource::new(content, Vec::new(alloc));
    let mut sink = FaultySink::new(alloc, Vec::new(alloc));
    let status = lab(alloc, &words, &mut source, &mut sink);
    Ok((status, sink))
}
