//! The register and the random bytes of a relay, as the value of a lock.

ghost use Rattle.std.specs.Prelude.{◌≡◌, None, []};
ghost use Rattle.relay_desk.specs.Desks.{IsLegalDesk, StandsForDesk};
ghost use Rattle.relay_desk.specs.Kept.{DeskFollows, IsLegalFor, Keeps, began_of};
ghost use Rattle.relay_desk.specs.declared.desk_call.DeskCall.TheVariants as DeskCall;

use crate::desk_call::{DeskAnswer, DeskCall};
use chan_io::Entropy;
use chan_values::Side;
use session_register::{Keeper, Register, Row, SessionName, Token};
use std::alloc::Global;
use std::collections::LinkedList;
use std::snapshot::Snapshot;
use turn_lock::Turn;

/// What the keeper and the random bytes of a desk told when it was made. No value of it is made.
pub struct Began {
    /// The keeper's rows, where it tells them.
    pub rows: Option<LinkedList<Row>>,
    /// How many of the keeper's calls had failed.
    pub store_faults: u64,
    /// The draws to come, where they are told.
    pub draws: Option<LinkedList<[u8; 16]>>,
    /// How many draws had failed.
    pub draw_faults: u64,
}

/// The register and the random bytes of a relay. For callers in several threads: put it into a
/// `TurnLock`. Its setting is what both told when it was made.
#[derive(Drop)]
pub struct Desk<K: Drop, E: Drop> {
    alloc: Global,
    /// The register.
    pub register: Register<K>,
    /// The random bytes.
    pub entropy: E,
    // What both were when the desk was made.
    register_then: Snapshot<Register<K>>,
    entropy_then: Snapshot<E>,
}

impl<K: Keeper + Drop, E: Entropy + Drop> Desk<K, E> {
    /// The desk of a register and of random bytes.
    pub fn new(alloc: Global, register: Register<K>, entropy: E) -> Desk<K, E>
        ensures stands { Keeps K.rows K.faults E.draws E.fault_count result [] }
        ensures legal { IsLegalFor K.rows K.faults E.draws E.fault_count result [] }
        ensures register { result.register ≡ register }
        ensures entropy { result.entropy ≡ entropy }
        ensures began { began_of K.rows K.faults E.draws E.fault_count result
            ≡ record {
              rows = K.rows register.keeper;
              store_faults = K.faults register.keeper;
              draws = E.draws entropy;
              draw_faults = E.fault_count entropy;
            } }
    {
        let register_then = Snapshot::of(&register);
        let entropy_then = Snapshot::of(&entropy);
        Desk {
            alloc,
            register,
            entropy,
            register_then,
            entropy_then,
        }
    }

    /// The register and the random bytes.
    pub fn into_parts(self) -> (Register<K>, E)
        ensures register { result.0 ≡ self.register }
        ensures entropy { result.1 ≡ self.entropy }
    {
        let Desk {
            alloc: _,
            register,
            entropy,
            register_then: _,
            entropy_then: _,
        } = self;
        (register, entropy)
    }

    fn create(&mut self, session: &SessionName, plugin: u64, agent: u64) -> DeskAnswer
        ensures { DeskFollows K.rows K.faults E.draws E.fault_count self.old self.new
            (DeskCall.Create session.now plugin agent) result }
    {
        DeskAnswer::Create(self.register.create(self.alloc, session, plugin, agent))
    }

    fn open(&mut self, session: &SessionName, role: Side, token: Token, fresh: u64) -> DeskAnswer
        ensures { DeskFollows K.rows K.faults E.draws E.fault_count self.old self.new
            (DeskCall.Open session.now role token fresh) result }
    {
        DeskAnswer::Open(self.register.open(self.alloc, session, role, token, fresh))
    }

    fn end(&mut self, session: &SessionName) -> DeskAnswer
        ensures { DeskFollows K.rows K.faults E.draws E.fault_count self.old self.new
            (DeskCall.End session.now) result }
    {
        DeskAnswer::End(self.register.end(self.alloc, session))
    }

    fn ended(&mut self, session: &SessionName) -> DeskAnswer
        ensures { DeskFollows K.rows K.faults E.draws E.fault_count self.old self.new
            (DeskCall.Ended session.now) result }
    {
        DeskAnswer::Ended(self.register.ended(self.alloc, session))
    }

    fn draw(&mut self) -> DeskAnswer
        ensures { DeskFollows K.rows K.faults E.draws E.fault_count self.old self.new
            DeskCall.Draw result }
    {
        DeskAnswer::Draw(self.entropy.draw())
    }

    /// Makes the call that is named.
    fn call(&mut self, call: DeskCall) -> DeskAnswer
        ensures { DeskFollows K.rows K.faults E.draws E.fault_count self.old self.new call result }
    {
        match call {
            DeskCall::Create {
                session,
                plugin,
                agent,
            } => self.create(&session, plugin, agent),
            DeskCall::Open {
                session,
                role,
                token,
                fresh,
            } => self.open(&session, role, token, fresh),
            DeskCall::End { session } => self.end(&session),
            DeskCall::Ended { session } => self.ended(&session),
            DeskCall::Draw => self.draw(),
        }
    }
}

impl<K: Keeper + Drop, E: Entropy + Drop> Turn for Desk<K, E> {
    type Call = DeskCall;

    type Answer = DeskAnswer;

    type Setting = Began;

    ghost legal = { IsLegalDesk };

    ghost stands = { Keeps K.rows K.faults E.draws E.fault_count };

    ghost callable = { λ _. Unit {0} };

    ghost setting = { began_of K.rows K.faults E.draws E.fault_count };

    ghost unset = { record { rows = None; store_faults = 0; draws = None; draw_faults = 0 } };

    fn act(&mut self, call: DeskCall) -> DeskAnswer {
        self.call(call)
    }
}
