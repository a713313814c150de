//! What a run comes to.

ghost use Rattle.std.specs.Prelude.{◌≡◌, None, false};

use super::cases::{CASES, Case, Serving};
use super::runs::{ACCEPTED, ENDED, Met, is_opened_with, letters, run};
use super::taking_session::TakingSession;
use crate::Outcome;
use chan_values::NoMemory;
use session_crews::CountingFeeder;
use session_run::OpenGate;
use std::alloc::Global;
use std::sync::Wait;
use std::test::Fail;
use std::thread::Threads;

/// A session that does so.
fn session(alloc: Global, serving: Serving) -> TakingSession
    ensures unbegun { result.begun ≡ false }
    ensures none_out { result.out ≡ None }
{
    let agrees = serving != Serving::Unagreed;
    match serving {
        Serving::Refuses => TakingSession::new(alloc, None, Some(2), agrees),
        Serving::Feeds => {
            let feeder = CountingFeeder::new(alloc, 7, 3);
            TakingSession::new(alloc, Some(feeder), None, agrees)
        }
        Serving::Fails => {
            let mut feeder = CountingFeeder::new(alloc, 7, 0);
            feeder.fails = true;
            TakingSession::new(alloc, Some(feeder), None, agrees)
        }
        _ => TakingSession::new(alloc, None, None, agrees),
    }
}

/// The name of an outcome.
fn name_of(outcome: &Outcome) -> &'static str {
    match outcome {
        Outcome::Ended => "ended",
        Outcome::Unagreed => "unagreed",
        Outcome::NoMemory => "no memory",
        Outcome::Refused(_) => "refused",
        Outcome::LinkLost => "link lost",
        Outcome::GaveUp(_) => "gave up",
        Outcome::Fault(_) => "fault",
        Outcome::FeedFault => "feed fault",
        Outcome::NoThread => "no thread",
        Outcome::EntropyFault => "entropy fault",
    }
}

/// Whether a case comes to what it says. The link is shut once exactly where the run was begun, and
/// no feeder stays out.
fn holds<R: Threads + Wait + Sync>(rt: &R, alloc: Global, case: &Case) -> Result<bool, NoMemory> {
    let session = session(alloc, case.serving);
    let ran = run(rt, alloc, &case.met, session, case.unstarted, &OpenGate)?;
    let shuts = if ran.ends.is_some() { 1 } else { 0 };
    let letters = letters(alloc, &ran.session)?;
    let dials = ran.link.dialer.dials().len();
    Ok(
        name_of(&ran.outcome) == case.outcome
            && case.dials.unwrap_or(dials) == dials
            && ran.link.output.shuts() == shuts
            && ran.session.out.is_none()
            && letters.as_str() == case.letters,
    )
}

#[test]
fn each_run_comes_to_its_outcome(rt: HostRuntime) -> Result<(), Fail> {
    for case in CASES {
        let so = holds(&rt, rt.alloc(), case)?;
        assert!(rt; so, "{}", case.what);
    }
    Ok(())
}

#[test]
fn openings_name_the_base_and_the_token(rt: HostRuntime) -> Result<(), Fail> {
    let met = Met {
        replies: &[ACCEPTED, ENDED],
        missed: &[],
        coming: &[],
        undrawn: false,
    };
    let session = session(rt.alloc(), Serving::Agreed);
    let ran = run(&rt, rt.alloc(), &met, session, &[], &OpenGate)?;
    let first = "{\"ClientId\":\"00010203-0405-0607-0809-0a0b0c0d0e0f\",\
        \"ClientVersion\":\"1.2.0.0\",\"MessageSchemaVersion\":\"1.0\",\
        \"RequestId\":\"00010203-0405-0607-0809-0a0b0c0d0e0f\",\
        \"TokenValue\":\"s-1.plugin.00000000000000010000000000000007\"}";
    let second = "{\"ClientId\":\"00010203-0405-0607-0809-0a0b0c0d0e0f\",\
        \"ClientVersion\":\"1.2.0.0\",\"MessageSchemaVersion\":\"1.0\",\
        \"RequestId\":\"00010203-0405-0607-0809-0a0b0c0d0e0f\",\
        \"TokenValue\":\"s-1.plugin.00000000000000020000000000000008\"}";
    let dials = ran.link.dialer.dials();
    assert!(rt;
        is_opened_with(dials, 0, first),
        "the first has the token of the setup"
    );
    assert!(rt;
        is_opened_with(dials, 1, second),
        "the second has that of the reply"
    );
    Ok(())
}
