//! A starter of programs of the system.

ghost use Rattle.std.specs.Prelude.{◌≡◌, IfSome};

use crate::polled_sink::PolledSink;
use crate::polled_source::PolledSource;
use crate::process_end::ProcessEnd;
use crate::stop::Stop;
use chan_io::{Failed, Text};
use chan_ports::{Child, Starter};
use std::alloc::Global;
use std::process::{
    ChildStderr, ChildStdin, ChildStdout, Command, Processes, Stdio, SystemProcess,
};
use std::time::Clock;

/// A child of the system with its pipes.
pub type ProcessChild<'a, R> = Child<
    PolledSink<'a, ChildStdin>,
    PolledSource<'a, ChildStdout>,
    PolledSource<'a, ChildStderr>,
    ProcessEnd<'a, R>,
>;

/// A starter of programs, whose children end with the session.
#[derive(Drop)]
pub struct ProcessStarter<'a, R> {
    rt: R,
    alloc: Global,
    stop: &'a Stop,
    faults: u64,
}

impl<'a, R> ProcessStarter<'a, R> {
    /// A starter that started nothing yet.
    pub fn new(rt: R, alloc: Global, stop: &'a Stop) -> ProcessStarter<'a, R> {
        ProcessStarter {
            rt,
            alloc,
            stop,
            faults: 0,
        }
    }
}

impl<'a, R: Processes<Started = SystemProcess> + Clock + Copy + Send> Starter
    for ProcessStarter<'a, R> {
    type Stdin = PolledSink<'a, ChildStdin>;

    type Stdout = PolledSource<'a, ChildStdout>;

    type Stderr = PolledSource<'a, ChildStderr>;

    type End = ProcessEnd<'a, R>;

    ghost faults = { λ s. s.faults };

    fn start(&mut self, program: &Text) -> Result<ProcessChild<'a, R>, Failed> {
        match started(self.rt, self.alloc, self.stop, program) {
            Some(child) => Ok(child),
            None => {
                self.faults = self.faults.saturating_add(1);
                Err(Failed)
            }
        }
    }
}

/// A child that runs the program, with a pipe for each of its streams.
fn started<'a, R: Processes<Started = SystemProcess> + Copy>(
    rt: R,
    alloc: Global,
    stop: &'a Stop,
    program: &Text,
) -> Option<ProcessChild<'a, R>>
    ensures { IfSome result (λ c. (c.stdin ≡ 0) × (c.stdout ≡ 0) × (c.stderr ≡ 0) × (c.end ≡ 0)) }
{
    let mut command = Command::new(alloc, program.as_str()).ok()?;
    command.stdin(Stdio::piped());
    command.stdout(Stdio::piped());
    command.stderr(Stdio::piped());
    let mut child = command.spawn(&rt).ok()?;
    let stdin = child.stdin.take()?;
    let stdout = child.stdout.take()?;
    let stderr = child.stderr.take()?;
    Some(Child {
        stdin: PolledSink::new(stdin, stop),
        stdout: PolledSource::new(stdout, stop),
        stderr: PolledSource::new(stderr, stop),
        end: ProcessEnd::new(child, rt, stop),
    })
}
