//! A relay with a line of what goes out for each connection, as the value of a lock.

ghost use Rattle.std.specs.Prelude.{◌≡◌, ℕ, [], IsSome, OnErr, OnOk, false, if◌then◌else◌};
ghost use Rattle.std.specs.BTreeMap.{get};
ghost use Rattle.std.specs.Ordering.{nat_cmp};
ghost use Rattle.relay_switch.specs.Lines.{line_in, waiting_in};
ghost use Rattle.relay_switch.specs.Switching.{IsLegalSwitch, StandsForSwitch, SwitchFollows, is_among, is_binary, is_drop};
ghost use Rattle.relay_switch.specs.Steps.{HasLine, LetsIn, OpensLines, SameSwitch, StepsOrNot, Takes, TakesFirst, added_by, change_of, is_known, lets_in, overflows};
ghost use Rattle.relay_switch.specs.Lines.{SameLines};
ghost use Rattle.relay_switch.specs.declared.switch_call.SwitchAnswer.TheVariants as SwitchAnswer;
ghost use Rattle.relay_switch.specs.declared.switch_call.SwitchCall.TheVariants as SwitchCall;

use crate::line::{Line, MAX_WAITING};
use crate::lines::{
    bytes_waiting, close_if, forget_line, is_open, keep_line, open_line, settle, take_first,
};
use crate::switch_call::{SwitchAnswer, SwitchCall};
use chan_values::NoMemory;
use relay_core::{Action, Actions, Event, Relay};
use std::alloc::Global;
use std::collections::{BTreeMap, BTreeSet};
use std::marker::Model;
use turn_lock::Turn;

/// A relay, with a line of what goes out for each connection. For callers in several threads: put it
/// into a `TurnLock`.
///
/// A message that is forwarded is dropped where more than 16,777,216 bytes would wait for its receiver.
#[derive(Drop)]
pub struct Switch {
    alloc: Global,
    relay: Relay,
    // The line of each connection that is open, or for which something waits.
    lines: BTreeMap<u64, Line>,
    // What the last step added. It stands behind what waits in the lines, until a step moves it there.
    added: Vec<Action>,
    // The connections that were let in.
    opened: BTreeSet<u64>,
}

impl Model for Switch {
    ghost use Rattle.relay_switch.specs.Switching.{SwitchState};

    ghost Value = { SwitchState };

    ghost view = { λ s. record {
      relay = s.relay;
      lines = s.lines.entries;
      added = s.added.items;
      opened = s.opened.keys;
    } };
}

impl Switch {
    /// A switch with no connections.
    pub fn new(alloc: Global) -> Switch
        ensures stands { StandsForSwitch result [] }
        ensures legal { IsLegalSwitch [] }
    {
        Switch {
            alloc,
            relay: Relay::new(alloc),
            lines: BTreeMap::new(alloc),
            added: Vec::new(alloc),
            opened: BTreeSet::new(alloc),
        }
    }

    /// Makes the call that is named.
    fn call(&mut self, call: SwitchCall) -> SwitchAnswer
        ensures { SwitchFollows self.old self.new call result }
    {
        match call {
            SwitchCall::Step { event, id, now } => match self.step(event, id, now) {
                Ok(()) => SwitchAnswer::Done,
                Err(NoMemory) => SwitchAnswer::NoMemory,
            },
            SwitchCall::Take { conn } => match self.take(conn) {
                Some(action) => SwitchAnswer::Next(action),
                None => self.idle(conn),
            },
        }
    }

    /// Makes a step of the relay. All memory is taken before it.
    fn step(&mut self, event: Event, id: [u8; 16], now: u64) -> Result<(), NoMemory>
        ensures ok { OnOk result (StepsOrNot self.old event id now self.new) }
        ensures err { OnErr result (SameSwitch self.old self.new) }
    {
        if is_known(&self.opened, &event) {
            return Ok(());
        }
        let change = change_of(&event);
        let forwards = is_binary(&event);
        settle(self.alloc, &mut self.lines, &mut self.added)?;
        make_room(self.alloc, &mut self.lines, change)?;
        let_in(&mut self.opened, change)?;
        match self.relay.step(event, id, now) {
            Ok(told) => {
                self.added = added_by(self.alloc, forwards, &self.lines, told);
                open_by(&mut self.lines, change);
                Ok(())
            }
            Err(NoMemory) => {
                take_back(&mut self.opened, change);
                Err(NoMemory)
            }
        }
    }

    /// Takes the next action at a connection.
    fn take(&mut self, conn: u64) -> Option<Action>
        ensures { Takes self.old conn result self.new }
    {
        let action = take_first(&mut self.lines, &mut self.added, conn)?;
        close_if(&mut self.lines, conn, is_drop(&action));
        Some(action)
    }

    /// The answer to a take where nothing waits. What is kept of a connection that is over goes.
    fn idle(&mut self, conn: u64) -> SwitchAnswer
        requires { waiting_in self.old.lines self.old.added conn ≡ [] }
        ensures same { SameSwitch self.old self.new }
        ensures answer { result ≡ (if (line_in self.old.lines conn).is_open
            then SwitchAnswer.Nothing else SwitchAnswer.Over) }
    {
        if is_open(&self.lines, conn) {
            return SwitchAnswer::Nothing;
        }
        forget_line(&mut self.lines, conn);
        SwitchAnswer::Over
    }
}

impl Turn for Switch {
    type Call = SwitchCall;

    type Answer = SwitchAnswer;

    type Setting = ();

    ghost legal = { λ _ calls. IsLegalSwitch calls };

    ghost stands = { StandsForSwitch };

    ghost callable = { λ _. Unit {0} };

    ghost setting = { λ _. tt };

    ghost unset = { tt };

    fn act(&mut self, call: SwitchCall) -> SwitchAnswer {
        self.call(call)
    }
}

/// What an event does to its connection.
#[derive(Clone, Copy)]
enum Change {
    /// It is let in.
    Opens(u64),
    /// It is lost.
    Loses(u64),
    /// It stays.
    Nothing,
}

fn change_of(event: &Event) -> Change
    ensures { result ≡ change_of event.now }
{
    match event {
        Event::Opened { conn, .. } => Change::Opens(*conn),
        Event::Gone { conn } => Change::Loses(*conn),
        _ => Change::Nothing,
    }
}

fn is_drop(action: &Action) -> bool
    ensures { result ≡ is_drop action.now }
{
    matches!(action, Action::Drop(_))
}

fn is_binary(event: &Event) -> bool
    ensures { result ≡ is_binary event.now }
{
    matches!(event, Event::Binary { .. })
}

/// Whether the event lets in a connection that was let in before.
fn is_known(opened: &BTreeSet<u64>, event: &Event) -> bool
    ensures { result ≡ is_known opened.now.keys event.now }
{
    match event {
        Event::Opened { conn, .. } => opened.contains(conn),
        _ => false,
    }
}

/// Sees to it that a connection that is let in has a line.
fn make_room(alloc: Global, lines: &mut BTreeMap<u64, Line>, change: Change) -> Result<(), NoMemory>
    ensures same { SameLines lines.old.entries lines.new.entries }
    ensures kept { OnOk result (HasLine change (λ conn. IsSome (get nat_cmp lines.new conn))) }
{
    match change {
        Change::Opens(conn) => keep_line(alloc, lines, conn),
        _ => Ok(()),
    }
}

/// Notes a connection that is let in.
fn let_in(opened: &mut BTreeSet<u64>, change: Change) -> Result<(), NoMemory>
    ensures ok { OnOk result (LetsIn change opened.old.keys opened.new.keys) }
    ensures err { OnErr result (opened.new.keys ≡ opened.old.keys) }
{
    if let Change::Opens(conn) = change {
        opened.insert(conn)?;
    }
    Ok(())
}

/// Takes that back.
fn take_back(opened: &mut BTreeSet<u64>, change: Change)
    ensures { (c : ℕ) → is_among opened.new.keys c
        ≡ (if lets_in change c then false else is_among opened.old.keys c) }
{
    if let Change::Opens(conn) = change {
        opened.remove(&conn);
    }
}

/// Notes which connection is open now.
fn open_by(lines: &mut BTreeMap<u64, Line>, change: Change)
    requires { HasLine change (λ conn. IsSome (get nat_cmp lines.old conn)) }
    ensures { OpensLines change lines.old.entries lines.new.entries }
{
    match change {
        Change::Opens(conn) => open_line(lines, conn),
        Change::Loses(conn) => close_if(lines, conn, true),
        Change::Nothing => (),
    }
}

/// What is added: nothing where the one message that is forwarded finds no room.
fn added_by(
    alloc: Global,
    forwards: bool,
    lines: &BTreeMap<u64, Line>,
    told: Actions,
) -> Vec<Action>
    ensures { result.items ≡ added_by forwards lines.now.entries told }
{
    if forwards && overflows(lines, told.as_slice()) {
        Vec::new(alloc)
    } else {
        told.into_vec()
    }
}

/// Whether the one message that is forwarded finds no room in the line of its receiver.
fn overflows(lines: &BTreeMap<u64, Line>, told: &[Action]) -> bool
    ensures { result ≡ overflows lines.now.entries told.now }
{
    match told {
        [Action::Send(conn, bytes)] => {
            bytes_waiting(lines, *conn).saturating_add(bytes.len() as u64) > MAX_WAITING
        }
        _ => false,
    }
}
