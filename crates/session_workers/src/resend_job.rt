//! The resend worker as a job.

ghost use Rattle.std.specs.Prelude.{◌≡◌, false};
ghost use Rattle.channel_core.specs.Numbers.{or_else};
ghost use Rattle.turn_lock.specs.Seats.{IsSeatOf};

use crate::resender::Resender;
use chan_io::{Clock, Job};
use session_run::{Gate, Held};
use std::sync::Wait;
use turn_lock::TurnLock;

/// The number of the resend worker at the gate.
pub const RESEND: u32 = 2;

/// The resend worker with all that it needs.
#[derive(Drop)]
pub struct ResendJob<'s, R, C, G> {
    /// The runtime.
    pub rt: &'s R,
    /// The lock over the end.
    pub ends: &'s TurnLock<Held>,
    /// The clock.
    pub clock: &'s C,
    /// What it passes at the beginning of each turn.
    pub gate: &'s G,
    /// The resend worker, before its first turn.
    pub resender: Resender,
    ghost new: { resender.over ≡ false },
    ghost its_end: { IsSeatOf ends.now resender.end },
}

/// What the resend worker ends with.
#[derive(Drop)]
pub struct ResendDone {
    /// Its seat.
    pub resender: Resender,
    /// The number on which the end gave up, if it did.
    pub gave_up: Option<u64>,
}

impl<'s, R: Wait + Sync, C: Clock + Sync, G: Gate> Job for ResendJob<'s, R, C, G> {
    ghost use Rattle.session_workers.specs.ResendRuns.{ResendsAll};

    type Done = ResendDone;

    ghost may_end = { λ job done. ResendsAll job.resender done.resender done.gave_up };

    fn run(self) -> ResendDone {
        let ResendJob {
            rt,
            ends,
            clock,
            gate,
            mut resender,
        } = self;
        let mut turn: u64 = 0;
        let mut gave_up = None;
        for _ in rt.forever() {
            turn = turn.saturating_add(1);
            gate.mark(RESEND, turn);
            gave_up = first_of(gave_up, resender.turn(rt, ends, clock));
            if resender.over {
                return ResendDone { resender, gave_up };
            }
        }
        unreachable!()
    }
}

/// The first of two numbers, or else the second.
fn first_of(one: Option<u64>, other: Option<u64>) -> Option<u64>
    ensures { result ≡ or_else one other }
{
    match one {
        Some(seq) => Some(seq),
        None => other,
    }
}
