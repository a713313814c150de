//! The agent's end of a shell session: it starts a program and carries its streams.
//!
//! ```text
//!            request             response                 both outputs ended
//!   begin  ----------> opening ----------> child runs  -----------------------> status
//!                                            |    ^
//!                                            +----+ bytes for its input, Flag 2
//! ```

ghost use Rattle.std.specs.Prelude.{◌≡◌, ◌≤◌, [], ◌∷◌, All, IfErr, IfOk, IfSome, None, true, false, length};
ghost use Rattle.session_feeds.specs.Marks.{IsNew};
ghost use Rattle.chan_values.specs.Limits.{max_payload};
ghost use Rattle.handshake.specs.AgentState.{is_asked};
ghost use Rattle.session_feeds.specs.Sessions.{AddsMarks, AllSmall, Gives, MayCall, feeders_of, puts_in, refusal_in};
ghost use Rattle.shell_session.specs.AgentSteps.{Begins, Opens, Runs};
ghost use Rattle.shell_session.specs.Agents.{AgentStandsFor, IsRaised, agent_out, new_shell_agent, standard};
ghost use Rattle.shell_session.specs.Readings.{new_reading};
ghost use Rattle.shell_session.specs.Verdicts.{EndsByStatus};

use crate::asking::{nothing, put, refusal};
use crate::child_feeder::ChildFeeder;
use crate::code::{OUTPUT, STD_ERR};
use crate::exit::exit_item;
use crate::running_child::RunningChild;
use crate::stream_feeder::{StreamFeeder, keep};
use chan_io::{Sink, Source};
use chan_ports::{Starter, Waited};
use chan_values::{Item, NoMemory, Text};
use handshake::laws::short_requests_fit;
use handshake::{AgentSide, Agreed, Properties, SessionType, Step};
use session_feeds::{Feeder, Session, SessionFault, Verdict};
use session_run::Parcel;
use std::alloc::Global;
use std::marker::Model;

/// The agent's end of a shell session.
#[derive(Drop)]
pub struct ShellAgent<T: Starter> {
    alloc: Global,
    starter: T,
    program: Text,
    side: AgentSide,
    agreed: bool,
    begun: bool,
    refused: Option<SessionFault>,
    pub(crate) child: Option<RunningChild<T::Stdin, T::End>>,
    // The feeders that came back.
    output: Option<StreamFeeder<T::Stdout>>,
    errors: Option<StreamFeeder<T::Stderr>>,
}

impl<T: Starter> Model for ShellAgent<T> {
    ghost use Rattle.std.specs.Prelude.{◌≡◌, true, false, None};
    ghost use Rattle.handshake.specs.AgentState.{is_asked};
    ghost use Rattle.shell_session.specs.AgentSteps.{IsWaiting};
    ghost use Rattle.shell_session.specs.Agents.{ShellAgentState};

    ghost Value = { ShellAgentState };

    ghost view = { λ s. record {
      program = s.program;
      stage = s.side;
      agreed = s.agreed;
      begun = s.begun;
      refused = s.refused;
      starter_faults = T.faults s.starter;
      child = s.child;
      output = s.output;
      errors = s.errors;
    } };

    ghost invariant = { λ s. record {
      unasked : s.begun ≡ false → is_asked s.side ≡ false;
      waits : s.begun ≡ true → s.refused ≡ None → s.child ≡ None → IsWaiting s.side;
      none_back : s.child ≡ None → (s.output ≡ None) × (s.errors ≡ None);
    } };
}

impl<T: Starter> ShellAgent<T> {
    /// An end that will ask for a session and start this program in it.
    pub fn new(alloc: Global, starter: T, program: Text) -> ShellAgent<T>
        ensures new { result ≡ new_shell_agent program (T.faults starter) }
        ensures stands { AgentStandsFor result
            (record { contents = T.faults starter; taken = []; given = []; back = [] }) }
    {
        short_requests_fit();
        ShellAgent {
            alloc,
            starter,
            program,
            side: AgentSide::new(alloc, standard()),
            agreed: false,
            begun: false,
            refused: None,
            child: None,
            output: None,
            errors: None,
        }
    }

    /// What it was made of. No feeder is out.
    pub fn into_parts(self) -> (T, Text)
        requires { agent_out self ≡ [] }
        ensures starter { T.faults result.0 ≡ self.starter_faults }
        ensures program { result.1 ≡ self.program }
    {
        (self.starter, self.program)
    }
}

impl<T: Starter + Send + Drop> Session for ShellAgent<T> {
    type F = ChildFeeder<T::Stdout, T::Stderr>;

    type Contents = u64;

    ghost stands = { AgentStandsFor };

    ghost out = { agent_out };

    ghost begun = { λ s. s.begun };

    ghost refused = { λ s. s.refused };

    ghost agreed = { λ s. s.agreed };

    fn begin(&mut self, now: u64) -> Result<Verdict<Self::F>, SessionFault> {
        let answer = ask(self.alloc, &mut self.side, now);
        self.begun = true;
        self.refused = refusal(&answer);
        answer
    }

    fn take(&mut self, now: u64, parcel: Parcel) -> Result<Verdict<Self::F>, SessionFault>
        requires { MayCall self.old.begun self.old.refused }
        ensures begun { self.new.begun ≡ true }
        ensures stands { Gives (AgentStandsFor self.old) (parcel ∷ []) (puts_in result)
            (AgentStandsFor self.new) }
        ensures out { AddsMarks ⟦<ChildFeeder<T::Stdout, T::Stderr> as Feeder>⟧.told (agent_out self.old) (feeders_of result)
            (agent_out self.new) }
        ensures refused { self.new.refused ≡ refusal_in result }
        ensures fits { AllSmall (puts_in result) }
        ensures fresh { All (λ f. IsNew (⟦<ChildFeeder<T::Stdout, T::Stderr> as Feeder>⟧.told f))
            (feeders_of result) }
        ensures ends { IfOk result EndsByStatus }
        ensures fault { IfErr result (λ fault. IsRaised fault self.old self.new) }
    {
        if let Some(child) = &mut self.child {
            let answer = run(self.alloc, child, parcel);
            self.refused = refusal(&answer);
            return answer;
        }
        let completion = match open(&mut self.side, now, parcel) {
            Ok(None) => return Ok(nothing(self.alloc)),
            Ok(Some(completion)) => completion,
            Err(fault) => {
                self.refused = Some(fault);
                return Err(fault);
            }
        };
        self.agreed = true;
        let Ok(child) = self.starter.start(&self.program) else {
            self.refused = Some(SessionFault::Start);
            return Err(SessionFault::Start);
        };
        let Ok(verdict) = feed(self.alloc, completion, child.stdout, child.stderr) else {
            self.refused = Some(SessionFault::NoMemory);
            return Err(SessionFault::NoMemory);
        };
        self.child = Some(RunningChild::new(child.stdin, child.end));
        Ok(verdict)
    }

    fn ready(&mut self) -> Result<(bool, Vec<Self::F>), SessionFault> {
        Ok((true, Vec::new(self.alloc)))
    }

    fn back(&mut self, feeder: Self::F) {
        match feeder {
            ChildFeeder::Output(feeder) => keep(&mut self.output, feeder),
            ChildFeeder::Errors(feeder) => keep(&mut self.errors, feeder),
        }
    }

    fn agreed(&self) -> bool {
        self.agreed
    }
}

/// Asks for the session.
fn ask<F: Drop>(alloc: Global, side: &mut AgentSide, now: u64) -> Result<Verdict<F>, SessionFault>
    requires { is_asked side.old ≡ false }
    ensures { Begins now side.old result side.new }
{
    let Ok(request) = side.request(now) else {
        return Err(SessionFault::NoMemory);
    };
    match put(alloc, request, false, false) {
        Ok(verdict) => Ok(verdict),
        Err(_) => Err(SessionFault::NoMemory),
    }
}

/// What a parcel does while no child was started: the completion, by which the session begins, if it
/// makes the handshake done.
fn open(side: &mut AgentSide, now: u64, parcel: Parcel) -> Result<Option<Item>, SessionFault>
    requires { is_asked side.old ≡ true }
    ensures opens { Opens now parcel side.old result side.new }
    ensures small { IfOk result (λ o. IfSome o (λ item. length item.payload ≤ max_payload)) }
    ensures asked { is_asked side.new ≡ true }
{
    let Parcel::Arrived(item) = parcel else {
        return Ok(None);
    };
    match side.step(item, now) {
        Step::Finish(completion, _agreed) => Ok(Some(completion)),
        Step::Refused(why) => Err(SessionFault::Handshake(why)),
        Step::NoMemory(_item) => Err(SessionFault::NoMemory),
        Step::Pass(_item) => Ok(None),
        Step::Put(_item) => Ok(None),
        Step::Done(_agreed) => Ok(None),
    }
}

/// Lets the feeders of a child's outputs out. The item, by which the session begins, is to be put in.
fn feed<A: Source + Drop, B: Source + Drop>(
    alloc: Global,
    completion: Item,
    stdout: A,
    stderr: B,
) -> Result<Verdict<ChildFeeder<A, B>>, NoMemory>
    ensures { IfOk result (λ verdict. (verdict.puts ≡ completion ∷ [])
        × (verdict.feeders.items
        ≡ ChildFeeder.Output (new_reading 1 (A.input stdout) (A.faults stdout))
        ∷ ChildFeeder.Errors (new_reading 11 (B.input stderr) (B.faults stderr)) ∷ [])
        × (verdict.last ≡ false) × (verdict.finish ≡ false)) }
{
    let mut verdict = put(alloc, completion, false, false)?;
    let output = StreamFeeder::new(alloc, stdout, OUTPUT);
    let errors = StreamFeeder::new(alloc, stderr, STD_ERR);
    verdict.feeders.push(ChildFeeder::Output(output))?;
    verdict.feeders.push(ChildFeeder::Errors(errors))?;
    Ok(verdict)
}

/// What a child does with a parcel. Behind the last of its outputs it is waited for, and its status
/// ends the session.
fn run<A: Sink, E: Waited, F: Drop>(
    alloc: Global,
    child: &mut RunningChild<A, E>,
    parcel: Parcel,
) -> Result<Verdict<F>, SessionFault>
    ensures { Runs parcel child.old result child.new }
{
    child.hear(&parcel);
    if !child.is_last_over(&parcel) {
        return Ok(nothing(alloc));
    }
    let Ok(status) = child.wait() else {
        return Err(SessionFault::Child);
    };
    let Ok(item) = exit_item(alloc, status) else {
        return Err(SessionFault::NoMemory);
    };
    match put(alloc, item, true, true) {
        Ok(verdict) => Ok(verdict),
        Err(_) => Err(SessionFault::NoMemory),
    }
}

/// The session that is asked for: the streams of a program, with no properties.
fn standard() -> Agreed
    ensures { result ≡ standard }
{
    Agreed {
        session: SessionType::Standard,
        properties: Properties::none(),
    }
}
