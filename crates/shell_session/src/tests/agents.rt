//! The agent's end.

ghost use Rattle.std.specs.Prelude.{◌≡◌, IfOk, IfSome, false, true};
ghost use Rattle.session_feeds.specs.Sessions.{MayCall};

use super::{OtherAnswer, answered, first, is_one, item};
use crate::ShellAgent;
use chan_ports::{FaultyStarter, Program};
use chan_values::{Item, Text};
use handshake::{ClientSide, Why};
use session_feeds::{Session, SessionFault};
use session_run::Parcel;
use std::alloc::Global;
use std::test::Fail;

type Agent = ShellAgent<FaultyStarter>;

/// What a program writes and reports, with its status; these calls of it fail.
fn program(alloc: Global, failing_input: &[u64], failing_waits: &[u64]) -> Result<Program, Fail> {
    Ok(Program {
        writes: Vec::from_slice(alloc, b"hi")?,
        reports: Vec::from_slice(alloc, b"oh")?,
        status: -3,
        failing_input: Vec::from_slice(alloc, failing_input)?,
        failing_output: Vec::new(alloc),
        failing_errors: Vec::new(alloc),
        failing_waits: Vec::from_slice(alloc, failing_waits)?,
    })
}

/// An agent with this program, of whose starts these fail.
fn agent(alloc: Global, program: Program, failing: &[u64]) -> Result<Agent, Fail>
    ensures { IfOk result (λ agent. agent.begun ≡ false) }
{
    let programs = vec![in alloc; program]?;
    let starter = FaultyStarter::new(alloc, programs, Vec::from_slice(alloc, failing)?);
    let name = Text::new(String::from_str(alloc, "/bin/sh")?);
    Ok(ShellAgent::new(alloc, starter, name))
}

/// Begins a session. Answers the response to its request.
fn asked(alloc: Global, agent: &mut Agent) -> Option<Item>
    requires { agent.old.begun ≡ false }
    ensures { IfSome result (λ response. MayCall agent.new.begun agent.new.refused) }
{
    let verdict = agent.begin(1).ok()?;
    let request = first(verdict.puts).ok()?;
    let version = String::from_str(alloc, "1.2.0.0").ok()?;
    let mut client = ClientSide::new(alloc, Text::new(version));
    answered(client.step(request, 2)).ok()
}

/// Begins a session and makes its handshake done. Answers whether it then puts the completion in
/// and feeds both outputs.
fn opens(alloc: Global, agent: &mut Agent) -> bool
    requires { agent.old.begun ≡ false }
    ensures { result ≡ true → MayCall agent.new.begun agent.new.refused }
{
    let Some(response) = asked(alloc, agent) else {
        return false;
    };
    let Ok(verdict) = agent.take(3, Parcel::Arrived(response)) else {
        return false;
    };
    let feeds = verdict.feeders.len();
    match verdict.puts.as_slice() {
        [item] => item.ptype == 7 && feeds == 2,
        _ => false,
    }
}

/// Whether a parcel makes it ask for nothing.
fn passes(agent: &mut Agent, parcel: Parcel) -> bool
    requires { MayCall agent.old.begun agent.old.refused }
    ensures { result ≡ true → MayCall agent.new.begun agent.new.refused }
{
    match agent.take(4, parcel) {
        Ok(verdict) => verdict.puts.as_slice().is_empty() && !verdict.finish,
        Err(_) => false,
    }
}

/// Whether an item makes it ask for nothing.
fn hears(alloc: Global, agent: &mut Agent, ptype: u32, payload: &[u8]) -> bool
    requires { MayCall agent.old.begun agent.old.refused }
    ensures { result ≡ true → MayCall agent.new.begun agent.new.refused }
{
    match item(alloc, ptype, payload) {
        Ok(item) => passes(agent, Parcel::Arrived(item)),
        Err(_) => false,
    }
}

/// The fault at a parcel.
fn fault_at(agent: &mut Agent, parcel: Parcel) -> Option<SessionFault>
    requires { MayCall agent.old.begun agent.old.refused }
{
    agent.take(5, parcel).err()
}

/// Whether the input of its program took these bytes, and was finished or not.
fn has_input(agent: &Agent, taken: &[u8], finished: bool) -> bool {
    match &agent.child {
        Some(child) => child.stdin.taken() == taken && child.stdin.is_finished() == finished,
        None => false,
    }
}

#[test]
fn a_program_runs_to_its_status(rt: HostRuntime) -> Result<(), Fail> {
    let alloc = rt.alloc();
    let mut agent = agent(alloc, program(alloc, &[], &[])?, &[])?;
    assert!(rt; opens(alloc, &mut agent), "the session begins");
    assert!(rt; agent.agreed(), "both sides agreed");
    assert!(rt; hears(alloc, &mut agent, 1, b"ls"), "its input");
    assert!(rt; passes(&mut agent, Parcel::Over), "one output goes on");
    let end = agent.take(6, Parcel::Over)?;
    assert!(rt; is_one(&end.puts, 12, b"-3"), "the status in decimal");
    assert!(rt; end.last && end.finish, "with which the session ends");
    assert!(rt;
        has_input(&agent, b"ls", false),
        "the program took the input"
    );
    Ok(())
}

#[test]
fn input_is_finished_once_by_the_flag(rt: HostRuntime) -> Result<(), Fail> {
    let alloc = rt.alloc();
    let mut agent = agent(alloc, program(alloc, &[], &[])?, &[])?;
    assert!(rt; opens(alloc, &mut agent), "the session begins");
    assert!(rt; hears(alloc, &mut agent, 3, b"{}"), "a Size");
    assert!(rt; hears(alloc, &mut agent, 1, b"a"), "its input");
    assert!(rt; hears(alloc, &mut agent, 10, &[0, 0, 0, 1]), "another flag");
    assert!(rt; has_input(&agent, b"a", false), "which ends nothing");
    assert!(rt; hears(alloc, &mut agent, 10, &[0, 0, 0, 2]), "flag 2");
    assert!(rt; has_input(&agent, b"a", true), "which ends the input");
    assert!(rt; hears(alloc, &mut agent, 1, b"b"), "input behind it");
    assert!(rt; passes(&mut agent, Parcel::Finished), "the last item");
    assert!(rt; has_input(&agent, b"a", true), "nothing behind the end");
    Ok(())
}

#[test]
fn input_ends_behind_the_last_item(rt: HostRuntime) -> Result<(), Fail> {
    let alloc = rt.alloc();
    let mut agent = agent(alloc, program(alloc, &[], &[])?, &[])?;
    assert!(rt; opens(alloc, &mut agent), "the session begins");
    assert!(rt; passes(&mut agent, Parcel::Finished), "the last item");
    assert!(rt; has_input(&agent, b"", true), "the input ended");
    Ok(())
}

#[test]
fn a_write_that_fails_drops_the_rest_of_the_input(rt: HostRuntime) -> Result<(), Fail> {
    let alloc = rt.alloc();
    let mut agent = agent(alloc, program(alloc, &[1], &[])?, &[])?;
    assert!(rt; opens(alloc, &mut agent), "the session begins");
    assert!(rt; hears(alloc, &mut agent, 1, b"a"), "a write");
    assert!(rt; hears(alloc, &mut agent, 1, b"b"), "one that fails");
    assert!(rt; hears(alloc, &mut agent, 1, b"c"), "one that is dropped");
    assert!(rt; passes(&mut agent, Parcel::Finished), "the last item");
    assert!(rt; has_input(&agent, b"a", false), "the first write alone");
    Ok(())
}

#[test]
fn a_start_that_fails_is_told(rt: HostRuntime) -> Result<(), Fail> {
    let alloc = rt.alloc();
    let mut agent = agent(alloc, program(alloc, &[], &[])?, &[0])?;
    let Some(response) = asked(alloc, &mut agent) else {
        return Err(OtherAnswer)?;
    };
    let fault = fault_at(&mut agent, Parcel::Arrived(response));
    assert!(rt; fault == Some(SessionFault::Start), "no child was started");
    assert!(rt; agent.agreed(), "both sides agreed before");
    Ok(())
}

#[test]
fn a_wait_that_fails_is_told(rt: HostRuntime) -> Result<(), Fail> {
    let alloc = rt.alloc();
    let mut agent = agent(alloc, program(alloc, &[], &[0])?, &[])?;
    assert!(rt; opens(alloc, &mut agent), "the session begins");
    assert!(rt; passes(&mut agent, Parcel::Over), "one output goes on");
    let fault = fault_at(&mut agent, Parcel::Over);
    assert!(rt; fault == Some(SessionFault::Child), "there is no status");
    Ok(())
}

#[test]
fn another_first_item_is_refused(rt: HostRuntime) -> Result<(), Fail> {
    let alloc = rt.alloc();
    let mut agent = agent(alloc, program(alloc, &[], &[])?, &[])?;
    let Some(_response) = asked(alloc, &mut agent) else {
        return Err(OtherAnswer)?;
    };
    let fault = fault_at(&mut agent, Parcel::Arrived(item(alloc, 1, b"a")?));
    let due = SessionFault::Handshake(Why::Order(1));
    assert!(rt; fault == Some(due), "the fault of the handshake");
    assert!(rt; !agent.agreed(), "nobody agreed");
    Ok(())
}
