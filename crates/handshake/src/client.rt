//! The client's side of a handshake.
//!
//! ```text
//!                    request                       completion
//!   ExpectRequest  ----------->  ExpectComplete  -------------->  Done
//!         |                            |
//!         | anything else, or a        | anything else
//!         | request for no session     v
//!         +------------------------> Refused
//! ```

ghost use Rattle.std.specs.Prelude.{◌≡◌, ℕ, List, [], OnOk, IfErr, true};
ghost use Rattle.chan_values.specs.declared.item.Item.{Item};
ghost use Rattle.handshake.specs.Client.{IsClientStep, IsCompletion};
ghost use Rattle.handshake.specs.ClientState.{ClientFollows, ClientStands, IsClientStage, IsSoundStage, stage_behind};
ghost use Rattle.handshake.specs.Items.{IsOther};
ghost use Rattle.handshake.specs.Steps.{IsSound, OnNoMemory, items_after};
ghost use Rattle.handshake.specs.Stops.{IfRefused};
ghost use Rattle.json_bodies.specs.HandshakeComplete.{complete_faults};
ghost use Rattle.json_bodies.specs.Reading.{Shows};

use crate::agreed::Agreed;
use crate::code::HANDSHAKE_COMPLETE;
use crate::response::reply_to;
use crate::step::{Step, Why};
use crate::stop::Stop;
use chan_values::{Item, Text};
use json_bodies::HandshakeComplete;
use std::alloc::Global;
use std::marker::Model;
use std::mem;

/// The side that is asked: the plugin's.
#[derive(Drop)]
pub struct ClientSide {
    alloc: Global,
    version: Text,
    stage: ClientStage,
}

/// What a client awaits.
#[derive(Drop)]
pub(crate) enum ClientStage {
    /// The request.
    ExpectRequest,
    /// The completion, by which this session begins.
    ExpectComplete(Agreed),
    /// Nothing more.
    Done,
    /// Nothing more: an item was refused for this, or any next one will be.
    Refused(Why),
}

impl Model for ClientSide {
    ghost use Rattle.handshake.specs.ClientState.{ClientState, IsSoundStage};

    ghost Value = { ClientState };

    ghost view = { λ c. record { version = c.version; stage = c.stage } };

    ghost invariant = { λ c. IsSoundStage c.stage };
}

impl ClientSide {
    /// A client that tells this version and was given no item.
    pub fn new(alloc: Global, version: Text) -> ClientSide
        ensures { ClientStands version result [] }
    {
        ClientSide {
            alloc,
            version,
            stage: ClientStage::ExpectRequest,
        }
    }

    /// Takes the next item. The moment is not looked at.
    pub fn step(&mut self, item: Item, _now: u64) -> Step
        ensures follows { ClientFollows self.old self.new item result }
        ensures sound { IsSound result }
        ensures same { OnNoMemory result (self.new ≡ self.old) }
    {
        let stage = mem::replace(&mut self.stage, ClientStage::Done);
        let (stage, step) = stage.next(self.alloc, &self.version, item);
        self.stage = stage;
        step
    }
}

impl ClientStage {
    /// What is awaited behind the next item, and the step with it.
    fn next(self, alloc: Global, version: &Text, item: Item) -> (ClientStage, Step)
        requires { IsSoundStage self }
        ensures follows { (given : List Item) → IsClientStage version.now self given
            → IsClientStep version.now given item result.1
            × IsClientStage version.now result.0 (items_after given item result.1) }
        ensures sound { IsSound result.1 }
        ensures stage { IsSoundStage result.0 }
        ensures same { OnNoMemory result.1 (result.0 ≡ self) }
    {
        match self {
            ClientStage::ExpectRequest => match reply_to(alloc, version, &item) {
                Ok(reply) => (ClientStage::behind(reply.agreed), Step::Put(reply.item)),
                Err(Stop::Refused(why)) => (ClientStage::Refused(why), Step::Refused(why)),
                Err(Stop::NoMemory) => (ClientStage::ExpectRequest, Step::NoMemory(item)),
            },
            ClientStage::ExpectComplete(agreed) => match take_completion(alloc, &item) {
                Ok(()) => (ClientStage::Done, Step::Done(agreed)),
                Err(Stop::Refused(why)) => (ClientStage::Refused(why), Step::Refused(why)),
                Err(Stop::NoMemory) => {
                    (ClientStage::ExpectComplete(agreed), Step::NoMemory(item))
                }
            },
            ClientStage::Done => (ClientStage::Done, Step::Pass(item)),
            ClientStage::Refused(why) => (ClientStage::Refused(why), Step::Refused(why)),
        }
    }

    /// What is awaited behind a request, by the session that is agreed on.
    fn behind(agreed: Option<Agreed>) -> ClientStage
        ensures { result ≡ stage_behind agreed }
    {
        match agreed {
            Some(agreed) => ClientStage::ExpectComplete(agreed),
            None => ClientStage::Refused(Why::NoSession),
        }
    }
}

/// Takes the item, which has to be a completion.
fn take_completion(alloc: Global, item: &Item) -> Result<(), Stop>
    ensures ok { OnOk result (IsCompletion item.now) }
    ensures refused { IfErr result (IfRefused (IsOther 7 (Shows complete_faults) item.now)) }
{
    if item.ptype != HANDSHAKE_COMPLETE {
        return Err(Stop::Refused(Why::Order(item.ptype)));
    }
    let _complete = HandshakeComplete::read(alloc, item.payload.as_slice())?;
    Ok(())
}
