ghost use Rattle.std.specs.Prelude.{◌≡◌, ◌+◌, IfSome};
ghost use denote.Param.Send.{IsSync};

use crate::{Clock, FaultySpawner, Job, Spawner, SteadySpawner, StillClock};
use std::sync::Wait;
use std::thread;
use std::thread::Threads;

/// A job that adds one.
#[derive(Drop)]
struct AddOne {
    number: u32,
}

impl Job for AddOne {
    ghost use Rattle.std.specs.Prelude.{◌≡◌, ◌+◌};

    type Done = u64;

    ghost may_end = { λ j sum. sum ≡ j.number + 1 };

    fn run(self) -> u64 {
        u64::from(self.number) + 1
    }
}

/// The spawner, and what the job of a number ended with, where it was started.
fn add_one<R: Threads + Wait + Sync, S: Spawner>(
    rt: &R,
    mut spawner: S,
    number: u32,
) -> (S, Option<u64>)
    ensures { IfSome result.1 (λ sum. sum ≡ number + 1) }
{
    thread::scope(
        thread::scope_env(),
        rt,
        move |scope| -> (S, Option<u64>)
            requires { IsSync R.row }
            ensures { IfSome result.1 (λ sum. sum ≡ number + 1) }
        {
            match spawner.start(rt, scope, AddOne { number }) {
                Ok(running) => {
                    let sum = running.join(rt);
                    (spawner, Some(sum))
                }
                Err(_) => (spawner, None),
            }
        },
    )
}

#[test]
fn a_start_fails_where_it_is_told_to(rt: HostRuntime) -> Result<(), std::test::Fail> {
    let spawner = FaultySpawner::new(rt.alloc(), vec![in rt.alloc(); 1]?);
    let (spawner, sum) = add_one(&rt, spawner, 6);
    assert!(rt; sum == Some(7), "the first start");
    let (spawner, sum) = add_one(&rt, spawner, 6);
    assert!(rt; sum == None, "the second fails");
    let (_, sum) = add_one(&rt, spawner.twin(), 6);
    assert!(rt; sum == Some(7), "a twin starts anew");
    Ok(())
}

#[test]
fn a_steady_spawner_starts_all(rt: HostRuntime) {
    let (_, sum) = add_one(&rt, SteadySpawner, 6);
    assert!(rt; sum == Some(7), "the job is run");
}

#[test]
fn a_still_clock_stands_still(rt: HostRuntime) {
    StillClock.rest(1);
    StillClock.wake();
    assert_eq!(rt; StillClock.now(), 0, "the moment is 0");
}
