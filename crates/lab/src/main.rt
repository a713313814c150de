//! `lab`: runs a script of the channel on two ends and reports each step.
//!
//! It reads the script from standard input and writes the report to standard output. A status other
//! than 0 is told on standard error in one line.
#![tactic(auto)]

mod words;

use chan_real::{StreamSink, StreamSource};
use lab_cmd::{Status, lab};
use std::process::ExitCode;

fn main(rt: HostRuntime) -> ExitCode {
    let status = run(&rt);
    if status != Status::Ok {
        let _ = eprintln!(rt; "{status}");
    }
    ExitCode::from(status.number())
}

fn run(rt: &HostRuntime) -> Status {
    let Ok(words) = words::words(rt) else {
        return Status::NoMemory;
    };
    let mut source = StreamSource::new(rt.stdin());
    let mut sink = StreamSink::new(rt.stdout());
    lab(rt.alloc(), &words, &mut source, &mut sink)
}
