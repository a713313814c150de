//! The agent's side of a handshake.
//!
//! ```text
//!             request                      consent
//!   Unasked  ---------->  ExpectResponse  ---------->  Done
//!                                |
//!                                | anything else
//!                                v
//!                             Refused
//! ```

ghost use Rattle.std.specs.Prelude.{◌≡◌, ◌≤◌, ℕ, List, IfOk, OnOk, OnErr, IfErr, Ok, true, false, length, option_map, find};
ghost use Rattle.chan_values.specs.Limits.{max_payload};
ghost use Rattle.chan_values.specs.declared.item.Item.{Item};
ghost use Rattle.handshake.specs.Agent.{IsAgentStep, IsConsent, IsNoConsent};
ghost use Rattle.handshake.specs.AgentState.{AgentFollows, AgentStands, Asks, IsShort, IsSoundAgent, is_asked, new_agent};
ghost use Rattle.handshake.specs.Items.{completion_item, request_item};
ghost use Rattle.handshake.specs.Sessions.{completion, is_session_result};
ghost use Rattle.handshake.specs.Steps.{IsSound, OnNoMemory, items_after};
ghost use Rattle.handshake.specs.Stops.{IfRefused};
ghost use Rattle.handshake.specs.declared.agreed.Agreed.{Agreed};
ghost use Rattle.json_bodies.specs.declared.processed.Processed.{Processed};

use crate::agreed::Agreed;
use crate::code::{
    HANDSHAKE_COMPLETE, HANDSHAKE_REQUEST, HANDSHAKE_RESPONSE, SESSION_ACTION, SUCCESS,
};
use crate::step::{Step, Why};
use crate::stop::Stop;
use chan_values::{Bytes, Item, NoMemory, Text};
use json_bodies::laws::completions_are_short;
use json_bodies::{
    Action, HandshakeComplete, HandshakeRequest, HandshakeResponse, Processed, Sequence,
};
use std::alloc::Global;
use std::marker::Model;
use std::mem;

/// AgentVersion of a request.
const AGENT_VERSION: &str = "3.3.0.0";

/// Nanoseconds of a millisecond.
const NANOS_PER_MILLI: u64 = 1_000_000;

/// The longest HandshakeTimeToComplete, in nanoseconds: 2^63 - 1.
const MAX_NANOS: u64 = (1 << 63) - 1;

/// The side that asks: the agent's.
#[derive(Drop)]
pub struct AgentSide {
    alloc: Global,
    stage: AgentStage,
}

/// What an agent awaits.
#[derive(Drop)]
pub(crate) enum AgentStage {
    /// To be asked for the request for this session.
    Unasked(Agreed),
    /// The response to the request for this session, which was given out at this moment.
    ExpectResponse(Agreed, u64),
    /// Nothing more.
    Done,
    /// Nothing more: an item was refused for this.
    Refused(Why),
}

impl Model for AgentSide {
    ghost use Rattle.handshake.specs.declared.agent.AgentStage.{AgentStage};
    ghost use Rattle.handshake.specs.AgentState.{IsSoundAgent};

    ghost Value = { AgentStage };

    ghost view = { λ a. a.stage };

    ghost invariant = { λ a. IsSoundAgent a.stage };
}

impl AgentSide {
    /// An agent that asks for this session. The text of its request takes at most 65,536 bytes, as
    /// by `laws::short_requests_fit` it does where the properties have at most 10,000.
    pub fn new(alloc: Global, choice: Agreed) -> AgentSide
        requires { IsShort choice }
        ensures { result ≡ new_agent choice }
    {
        AgentSide {
            alloc,
            stage: AgentStage::Unasked(choice),
        }
    }

    /// The first item, which is to be put in. It is asked for once.
    pub fn request(&mut self, now: u64) -> Result<Item, NoMemory>
        requires { is_asked self.old ≡ false }
        ensures asks { IfOk result (λ item. (choice : Agreed) → self.old ≡ new_agent choice
            → Asks choice now item self.new) }
        ensures small { IfOk result (λ item. length item.payload ≤ max_payload) }
        ensures asked { OnOk result (is_asked self.new ≡ true) }
        ensures same { OnErr result (self.new ≡ self.old) }
    {
        let stage = mem::replace(&mut self.stage, AgentStage::Done);
        let (stage, item) = stage.ask(self.alloc, now);
        self.stage = stage;
        item
    }

    /// Takes the next item.
    pub fn step(&mut self, item: Item, now: u64) -> Step
        requires { is_asked self.old ≡ true }
        ensures follows { AgentFollows self.old self.new item now result }
        ensures sound { IsSound result }
        ensures asked { is_asked self.new ≡ true }
        ensures same { OnNoMemory result (self.new ≡ self.old) }
    {
        let stage = mem::replace(&mut self.stage, AgentStage::Done);
        let (stage, step) = stage.next(self.alloc, item, now);
        self.stage = stage;
        step
    }
}

impl AgentStage {
    /// What is awaited behind the request, and its item.
    fn ask(self, alloc: Global, now: u64) -> (AgentStage, Result<Item, NoMemory>)
        requires unasked { is_asked self ≡ false }
        requires sound { IsSoundAgent self }
        ensures asks { IfOk result.1 (λ item. (choice : Agreed) → self ≡ new_agent choice
            → Asks choice now item result.0) }
        ensures small { IfOk result.1 (λ item. length item.payload ≤ max_payload) }
        ensures asked { OnOk result.1 (is_asked result.0 ≡ true) }
        ensures stage { IsSoundAgent result.0 }
        ensures same { OnErr result.1 (result.0 ≡ self) }
    {
        match self {
            AgentStage::Unasked(choice) => match request_item(alloc, &choice) {
                Ok(item) => (AgentStage::ExpectResponse(choice, now), Ok(item)),
                Err(NoMemory) => (AgentStage::Unasked(choice), Err(NoMemory)),
            },
            _ => unreachable!(),
        }
    }

    /// What is awaited behind the next item, and the step with it.
    fn next(self, alloc: Global, item: Item, now: u64) -> (AgentStage, Step)
        requires asked { is_asked self ≡ true }
        requires sound { IsSoundAgent self }
        ensures follows { (choice : Agreed) (asked : ℕ) (given : List Item)
            → AgentStands choice asked self given
            → IsAgentStep choice asked given item now result.1
            × AgentStands choice asked result.0 (items_after given item result.1) }
        ensures sound { IsSound result.1 }
        ensures asked { is_asked result.0 ≡ true }
        ensures stage { IsSoundAgent result.0 }
        ensures same { OnNoMemory result.1 (result.0 ≡ self) }
    {
        match self {
            AgentStage::ExpectResponse(choice, asked) => match finish(alloc, &item, asked, now) {
                Ok(completion) => (AgentStage::Done, Step::Finish(completion, choice)),
                Err(Stop::Refused(why)) => (AgentStage::Refused(why), Step::Refused(why)),
                Err(Stop::NoMemory) => {
                    (
                        AgentStage::ExpectResponse(choice, asked),
                        Step::NoMemory(item),
                    )
                }
            },
            AgentStage::Done => (AgentStage::Done, Step::Pass(item)),
            AgentStage::Refused(why) => (AgentStage::Refused(why), Step::Refused(why)),
            AgentStage::Unasked(_) => unreachable!(),
        }
    }
}

/// The item of the request for a session.
fn request_item(alloc: Global, choice: &Agreed) -> Result<Item, NoMemory>
    ensures { IfOk result (λ item. item ≡ request_item choice.now) }
{
    let name = Text::new(String::from_str(alloc, choice.session.name())?);
    let properties = choice.properties.copy(alloc)?;
    let mut actions = Vec::new(alloc);
    actions.push(Action::Session { name, properties })?;
    let request = HandshakeRequest {
        agent_version: Text::new(String::from_str(alloc, AGENT_VERSION)?),
        actions: Sequence::new(actions),
    };
    Ok(Item {
        ptype: HANDSHAKE_REQUEST,
        payload: Bytes::new(request.write(alloc)?),
    })
}

/// The completion now, behind the item, which has to be a response by which the session succeeded.
fn finish(alloc: Global, item: &Item, asked: u64, now: u64) -> Result<Item, Stop>
    ensures consent { OnOk result (IsConsent item.now) }
    ensures completion { IfOk result (λ out. out ≡ completion_item asked now) }
    ensures small { IfOk result (λ out. length out.payload ≤ max_payload) }
    ensures refused { IfErr result (IfRefused (IsNoConsent item.now)) }
{
    take_consent(alloc, item)?;
    Ok(completion_item(alloc, asked, now)?)
}

/// Takes the item, which has to be a response by which the session succeeded.
fn take_consent(alloc: Global, item: &Item) -> Result<(), Stop>
    ensures ok { OnOk result (IsConsent item.now) }
    ensures refused { IfErr result (IfRefused (IsNoConsent item.now)) }
{
    if item.ptype != HANDSHAKE_RESPONSE {
        return Err(Stop::Refused(Why::Order(item.ptype)));
    }
    let response = HandshakeResponse::read(alloc, item.payload.as_slice())?;
    match session_status(response.actions.as_slice()) {
        Some(SUCCESS) => Ok(()),
        Some(status) => Err(Stop::Refused(Why::Failed(status))),
        None => Err(Stop::Refused(Why::NoSession)),
    }
}

/// ActionStatus of the first of these actions that is about a session.
fn session_status(actions: &[Processed]) -> Option<u8>
    ensures { result
        ≡ option_map (λ (done : Processed). done.status) (find is_session_result actions.now) }
{
    actions
        .iter()
        .find(|done| is_session_result(done))
        .map(|done| done.status)
}

/// Whether what became of an action is about a session.
fn is_session_result(done: &Processed) -> bool
    ensures { result ≡ is_session_result done.now }
{
    done.name.as_str() == SESSION_ACTION
}

/// The item of the end of a handshake that was begun at a moment and is done now.
fn completion_item(alloc: Global, begun: u64, now: u64) -> Result<Item, NoMemory>
    ensures item { IfOk result (λ item. item ≡ completion_item begun now) }
    ensures small { IfOk result (λ item. length item.payload ≤ max_payload) }
{
    completions_are_short();
    let complete = HandshakeComplete {
        message: Text::new(String::new(alloc)),
        nanos: nanos_between(begun, now),
    };
    Ok(Item {
        ptype: HANDSHAKE_COMPLETE,
        payload: Bytes::new(complete.write(alloc)?),
    })
}

/// The time between two moments in milliseconds, in nanoseconds.
fn nanos_between(begun: u64, now: u64) -> u64
    ensures { result ≡ (completion begun now).nanos }
{
    let millis = now.saturating_sub(begun);
    millis.saturating_mul(NANOS_PER_MILLI).min(MAX_NANOS)
}
