//! The end of a child of the system.

ghost use Rattle.std.specs.Prelude.{None, ◌≡◌};

use crate::stop::Stop;
use chan_io::Failed;
use chan_ports::Waited;
use std::marker::Model;
use std::os::unix::process::ExitStatusExt;
use std::process::{Child, ExitStatus, SystemProcess};
use std::time::{Clock, Duration};
use std::{io, thread};

/// How long a wait rests between two looks, in milliseconds.
const LOOK_MILLIS: u64 = 5;

/// What is added to the number of the signal that ended a child, as shells do.
const SIGNAL_BASE: i32 = 128;

/// The end of a child. Once the session is over it kills the child that it waits for. It tells no status.
/// Contracts see it as its count of faults.
#[derive(Drop)]
pub struct ProcessEnd<'a, R> {
    child: Child<SystemProcess>,
    rt: R,
    stop: &'a Stop,
    faults: u64,
}

impl<'a, R> Model for ProcessEnd<'a, R> {
    ghost use Rattle.std.specs.Prelude.{ℕ};

    ghost Value = { ℕ };

    ghost view = { λ e. e.faults };
}

impl<'a, R> ProcessEnd<'a, R> {
    /// The end of this child.
    pub fn new(child: Child<SystemProcess>, rt: R, stop: &'a Stop) -> ProcessEnd<'a, R>
        ensures { result ≡ 0 }
    {
        ProcessEnd {
            child,
            rt,
            stop,
            faults: 0,
        }
    }
}

impl<'a, R: Clock> Waited for ProcessEnd<'a, R> {
    ghost statuses = { λ _. None };

    ghost faults = { λ e. e };

    fn wait(&mut self) -> Result<i32, Failed> {
        if let Ok(status) = ended(&mut self.child, &self.rt, self.stop) {
            if let Some(number) = number_of(&status) {
                return Ok(number);
            }
        }
        self.faults = self.faults.saturating_add(1);
        Err(Failed)
    }
}

/// Waits for the end of a child while the session lasts, and then ends it.
fn ended<R: Clock>(
    child: &mut Child<SystemProcess>,
    rt: &R,
    stop: &Stop,
) -> io::Result<ExitStatus> {
    for _ in 0..u64::MAX {
        if let Some(status) = child.try_wait()? {
            return Ok(status);
        }
        if stop.is_set() {
            child.kill()?;
            break;
        }
        thread::sleep(rt, Duration::from_millis(LOOK_MILLIS));
    }
    child.wait()
}

/// The status of a child that ended itself; of one that was ended by a signal, its number and 128.
fn number_of(status: &ExitStatus) -> Option<i32> {
    match status.code() {
        Some(code) => Some(code),
        None => status
            .signal()
            .map(|signal| signal.saturating_add(SIGNAL_BASE)),
    }
}
