//! A counter of its calls, shared by threads.
//!
//! No clause says that a waiter is woken. `no_waiter_sleeps_on` looks for a lost wake: where one thread
//! sleeps on, all wait for its ticket, and the test does not end.
ghost use Rattle.std.specs.Prelude.{◌≡◌, ℕ, IfOk};
ghost use denote.Param.Send.{IsSync};
ghost use Rattle.turn_lock.specs.Seats.{IsSeatOf, SameLock, HasWholeShare, share_of};

use crate::{Seat, Turn, TurnLock};
use chan_values::NoMemory;
use std::hint::spin_loop;
use std::sync::Wait;
use std::test::Fail;
use std::thread;
use std::thread::{Threads, join};

/// How many calls it answered. Each is answered the count after it.
#[derive(Drop)]
struct Counter {
    count: u64,
    /// Whether another thread runs in each turn, and finds the lock taken.
    yields: bool,
    // So that giving the value back takes a while, in which another thread can draw a ticket and go to
    // sleep.
    _ballast: [u64; 128],
}

fn new_counter(yields: bool) -> Counter
    ensures { result.count ≡ 0 }
{
    Counter {
        count: 0,
        yields,
        _ballast: [0; 128],
    }
}

impl Turn for Counter {
    ghost use Rattle.std.specs.Prelude.{◌≡◌, ◌+◌, ◌-◌, ◌^◌, min};
    ghost use Rattle.std.specs.List.{fold};
    ghost use Rattle.turn_lock.specs.Runs.{AllFit};

    type Call = ();

    type Answer = u64;

    type Setting = ();

    ghost legal = { λ _ h. AllFit
        (λ n e. min (n + 1) (2 ^ 64 - 1)) (λ n e. e.1 ≡ min (n + 1) (2 ^ 64 - 1)) 0 h };

    ghost stands = { λ c h. c.count ≡ fold (λ n e. min (n + 1) (2 ^ 64 - 1)) 0 h };

    ghost callable = { λ _. Unit {0} };

    ghost setting = { λ _. tt };

    ghost unset = { tt };

    fn act(&mut self, _call: ()) -> u64 {
        if self.yields {
            thread::yield_now();
        }
        self.count = self.count.saturating_add(1);
        self.count
    }
}

/// What a thread does.
trait Job: Send + Drop {
    type Done: Send;

    // What the job needs.
    ghost ready: { Self → Type 0 };

    // How it may end.
    ghost ends: { Self → Self.Done → Type 0 };

    fn run(self) -> Self::Done
        requires { ready self }
        ensures { ends self result };
}

fn run_both<J: Job, K: Job, R: Threads>(rt: &R, one: J, two: K) -> (J::Done, K::Done)
    requires one { J.ready one }
    requires two { K.ready two }
    ensures one { J.ends one result.0 }
    ensures two { K.ends two result.1 }
{
    join(rt, || one.run(), || two.run())
}

fn run_four<J: Job, R: Threads + Sync>(
    rt: &R,
    one: J,
    two: J,
    three: J,
    four: J,
) -> ((J::Done, J::Done), (J::Done, J::Done))
    requires one { J.ready one }
    requires two { J.ready two }
    requires three { J.ready three }
    requires four { J.ready four }
{
    join(
        rt,
        || -> (J::Done, J::Done)
            requires { IsSync R.row × J.ready one × J.ready two }
        { run_both(rt, one, two) },
        || -> (J::Done, J::Done)
            requires { IsSync R.row × J.ready three × J.ready four }
        { run_both(rt, three, four) },
    )
}

/// Makes calls, and rests between them.
#[derive(Drop)]
struct Caller<'a, R: Wait + Sync> {
    rt: &'a R,
    lock: &'a TurnLock<Counter>,
    seat: Seat<Counter>,
    calls: u32,
    /// The number of its first call. Each number has a rest of its own.
    first: u32,
}

impl<R: Wait + Sync> Job for Caller<'_, R> {
    type Done = Seat<Counter>;

    ghost ready = { λ j. IsSeatOf j.lock.now j.seat };

    ghost ends = { λ j seat. SameLock j.seat seat × (share_of seat ≡ share_of j.seat) };

    fn run(self) -> Seat<Counter> {
        let Caller {
            rt,
            lock,
            mut seat,
            calls,
            first,
        } = self;
        for call in 0..calls {
            lock.act(rt, &mut seat, ());
            rest(first.wrapping_add(call));
        }
        seat
    }
}

/// Rests for 0 to 1,023 pauses of the processor: some microseconds, which differ from call to call.
fn rest(call: u32) {
    for _ in 0..call.wrapping_mul(2_654_435_761) >> 22 {
        spin_loop();
    }
}

fn call_from_two_threads<R: Threads + Wait + Sync>(
    rt: &R,
    lock: &TurnLock<Counter>,
    mut one: Seat<Counter>,
) -> Seat<Counter>
    requires lock { IsSeatOf lock.now one }
    requires whole { HasWholeShare one }
    ensures lock { SameLock one result }
    ensures whole { HasWholeShare result }
{
    let Ok(two) = lock.split(&mut one) else {
        unreachable!()
    };
    let first = Caller {
        rt,
        lock,
        seat: one,
        calls: 100,
        first: 0,
    };
    let second = Caller {
        rt,
        lock,
        seat: two,
        calls: 100,
        first: 100,
    };
    let (mut one, two) = run_both(rt, first, second);
    lock.join(&mut one, two);
    one
}

#[test]
fn two_threads_make_200_calls(rt: HostRuntime) -> Result<(), Fail> {
    let (lock, seat) = TurnLock::new(rt.alloc(), new_counter(true))?;
    let seat = call_from_two_threads(&rt, &lock, seat);
    let (counter, _receipt) = lock.close_whole(seat);
    assert_eq!(rt; counter.count, 200);
    Ok(())
}

/// Makes 200,000 calls from each of four threads, through seats of their own.
fn call_from_four_threads<R: Threads + Wait + Sync>(
    rt: &R,
    lock: &TurnLock<Counter>,
    seat: &mut Seat<Counter>,
) -> Result<(), NoMemory>
    requires { IsSeatOf lock.now seat.old }
    ensures { SameLock seat.old seat.new }
{
    let one = split_caller(rt, lock, seat, 0)?;
    let two = split_caller(rt, lock, seat, 1_000_000)?;
    let three = split_caller(rt, lock, seat, 2_000_000)?;
    let four = split_caller(rt, lock, seat, 3_000_000)?;
    run_four(rt, one, two, three, four);
    Ok(())
}

fn split_caller<'a, R: Wait + Sync>(
    rt: &'a R,
    lock: &'a TurnLock<Counter>,
    seat: &mut Seat<Counter>,
    first: u32,
) -> Result<Caller<'a, R>, NoMemory>
    requires { IsSeatOf lock.now seat.old }
    ensures same { SameLock seat.old seat.new }
    ensures caller { IfOk result (λ caller. IsSeatOf caller.lock.now caller.seat) }
{
    Ok(Caller {
        rt,
        lock,
        seat: lock.split(seat)?,
        calls: 200_000,
        first,
    })
}

#[test]
fn no_waiter_sleeps_on(rt: HostRuntime) -> Result<(), Fail> {
    let (lock, mut seat) = TurnLock::new(rt.alloc(), new_counter(false))?;
    call_from_four_threads(&rt, &lock, &mut seat)?;
    let (counter, _receipt) = lock.close(&rt, seat);
    assert_eq!(rt; counter.count, 800_000);
    Ok(())
}

#[test]
fn a_lock_closes_where_a_seat_was_dropped(rt: HostRuntime) -> Result<(), Fail> {
    let (lock, mut one) = TurnLock::new(rt.alloc(), new_counter(true))?;
    let mut two = lock.split(&mut one)?;
    let first = lock.act(&rt, &mut two, ());
    drop(two);
    let second = lock.act(&rt, &mut one, ());
    let (counter, _receipt) = lock.close(&rt, one);
    assert_eq!(rt; (first, second, counter.count), (1, 2, 2));
    Ok(())
}
