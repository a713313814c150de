//! A run in threads, whose workers wait for each other.

use super::coming::Coming;
use super::runs::{ACCEPTED, ENDED, Met, run};
use super::taking_session::TakingSession;
use crate::Outcome;
use session_run::Gate;
use session_workers::{LINK_READER, LINK_WRITER};
use std::hint::spin_loop;
use std::sync::atomic::{AtomicBool, AtomicU64, Ordering};
use std::test::Fail;
use std::thread::yield_now;

/// How often a worker that is held looks whether it may go on.
const LOOKS: u32 = 10_000;

/// A gate that holds the link reader's second turn until the link writer's third began, and the
/// link writer's fourth until the link reader's third began.
#[derive(Drop)]
struct Crossing {
    reader: AtomicU64,
    writer: AtomicU64,
    /// Whether a worker was held for too many looks.
    late: AtomicBool,
}

impl Crossing {
    fn new() -> Crossing {
        Crossing {
            reader: AtomicU64::new(0),
            writer: AtomicU64::new(0),
            late: AtomicBool::new(false),
        }
    }

    /// Waits until this turn began.
    fn hold(&self, turns: &AtomicU64, turn: u64) {
        for _ in 0..LOOKS {
            if turn <= turns.load(Ordering::SeqCst) {
                return;
            }
            for _ in 0..10_000u32 {
                spin_loop();
            }
            yield_now();
        }
        self.late.store(true, Ordering::SeqCst);
    }
}

impl Gate for Crossing {
    fn mark(&self, worker: u32, turn: u64) {
        if worker == LINK_READER {
            self.reader.store(turn, Ordering::SeqCst);
            if turn == 2 {
                self.hold(&self.writer, 3);
            }
        }
        if worker == LINK_WRITER {
            self.writer.store(turn, Ordering::SeqCst);
            if turn == 4 {
                self.hold(&self.reader, 3);
            }
        }
    }
}

#[test]
fn workers_go_on_beside_each_other(rt: HostRuntime) -> Result<(), Fail> {
    let alloc = rt.alloc();
    let met = Met {
        replies: &[ACCEPTED, ENDED],
        missed: &[],
        coming: &[Coming::Message(0, b'a', false), Coming::Gone],
        undrawn: false,
    };
    let gate = Crossing::new();
    let session = TakingSession::new(alloc, None, None, true);
    let ran = run(&rt, alloc, &met, session, &[], &gate)?;
    assert!(rt; matches!(ran.outcome, Outcome::Ended), "the run ends");
    assert!(rt;
        !gate.late.load(Ordering::SeqCst),
        "no worker waits for another to end"
    );
    assert!(rt; ran.link.output.shuts() == 1, "the link is shut");
    Ok(())
}
