ghost use denote.Param.Send.{IsSync};

use crate::ThreadSpawner;
use chan_io::{Job, Spawner};
use std::sync::Wait;
use std::thread;
use std::thread::Threads;

/// A job that adds one.
#[derive(Drop)]
struct AddOne {
    number: u32,
}

impl Job for AddOne {
    ghost use Rattle.std.specs.Prelude.{◌≡◌, ◌+◌};

    type Done = u64;

    ghost may_end = { λ j sum. sum ≡ j.number + 1 };

    fn run(self) -> u64 {
        u64::from(self.number) + 1
    }
}

/// What the job of a number ended with, where it was started.
fn add_one<R: Threads + Wait + Sync>(
    rt: &R,
    mut spawner: ThreadSpawner,
    number: u32,
) -> Option<u64> {
    thread::scope(
        thread::scope_env(),
        rt,
        move |scope| -> Option<u64>
            requires { IsSync R.row }
        {
            match spawner.start(rt, scope, AddOne { number }) {
                Ok(running) => Some(running.join(rt)),
                Err(_) => None,
            }
        },
    )
}

#[test]
fn a_job_runs_in_a_thread(rt: HostRuntime) {
    let mut spawner = ThreadSpawner::new(rt.alloc());
    let twin = spawner.twin();
    assert!(rt; add_one(&rt, twin, 6) == Some(7), "a job of the twin");
    let other = spawner.twin();
    spawner.merge(other);
    assert!(rt; add_one(&rt, spawner, 6) == Some(7), "its own");
}
