//! The writing worker of a connection: in each turn it takes one action and carries it out.

ghost use Rattle.std.specs.Prelude.{◌≡◌, [], IfSome, false};
ghost use Rattle.chan_io.specs.LinksOut.{unsent};
ghost use Rattle.turn_lock.specs.Seats.{IsSeatOf, mine_of};
ghost use Rattle.relay_switch.specs.Kinds.{IsTakeAnswer};
ghost use Rattle.relay_switch.specs.Outlets.{EndsTurn, IsOutlet, is_last};
ghost use Rattle.relay_switch.specs.Sends.{EndsSend};
ghost use Rattle.relay_switch.specs.declared.switch_call.SwitchAnswer.{SwitchAnswer};

use crate::switch::Switch;
use crate::switch_call::SwitchAnswer;
use crate::switch_seat::take;
use chan_io::{IoFault, LinkOut};
use relay_core::Action;
use std::sync::Wait;
use turn_lock::{Seat, TurnLock};

/// How a turn ended.
#[derive(Clone, Copy, Debug, PartialEq, Eq)]
pub enum Turned {
    /// A text or a message was sent.
    Sent,
    /// There was nothing to send.
    Idle,
    /// The connection is over, and the output was shut.
    Over,
    /// The send failed, and the output was shut.
    Failed,
    /// There was no memory for the send, and the output was shut.
    NoMemory,
}

/// A connection's output, with the seat that takes what goes out on it.
#[derive(Drop)]
pub struct Outlet<U: LinkOut + Drop> {
    /// The connection.
    pub conn: u64,
    /// Its output.
    pub output: U,
    /// Whether the last turn was made: at first not.
    pub over: bool,
    /// The seat of its takes.
    pub seat: Seat<Switch>,
    ghost kept: { ∥ IsOutlet conn over (U.departures output) (mine_of seat) ∥₁ },
}

impl<U: LinkOut + Drop> Outlet<U> {
    ghost use Rattle.relay_switch.specs.OutletTurns.{Turns};

    /// The outlet of a connection on whose output nothing was sent, with a seat that made no calls.
    pub fn new(conn: u64, output: U, seat: Seat<Switch>) -> Outlet<U>
        requires unsent { IfSome (U.departures output) (λ d. d ≡ unsent) }
        requires none { mine_of seat ≡ [] }
        ensures conn { result.conn ≡ conn }
        ensures output { result.output ≡ output }
        ensures over { result.over ≡ false }
        ensures seat { result.seat ≡ seat }
    {
        Outlet {
            conn,
            output,
            over: false,
            seat,
        }
    }

    /// Takes one action and carries it out.
    pub fn turn<R: Wait>(&mut self, rt: &R, switch: &TurnLock<Switch>) -> Turned
        requires over { self.old.over ≡ false }
        requires lock { IsSeatOf switch.now self.old.seat }
        ensures { (answer : SwitchAnswer) × Turns self.old answer result self.new }
    {
        let answer = take(rt, switch, &mut self.seat, self.conn);
        let turned = carry_out(&mut self.output, answer);
        self.over = is_last(turned);
        turned
    }
}

/// Whether a turn is the last.
fn is_last(turned: Turned) -> bool
    ensures { result ≡ is_last turned }
{
    !matches!(turned, Turned::Sent | Turned::Idle)
}

/// Carries out what a take was answered.
fn carry_out<U: LinkOut>(output: &mut U, answer: SwitchAnswer) -> Turned
    requires { IsTakeAnswer answer }
    ensures { EndsTurn result answer (U.departures output.old) (U.departures output.new)
        (U.faults output.old) (U.faults output.new) }
{
    match answer {
        SwitchAnswer::Next(Action::Text(_, text)) => {
            let sent = output.send_text(text.as_slice());
            end_send(output, sent)
        }
        SwitchAnswer::Next(Action::Send(_, message)) => {
            let sent = output.send(message.as_slice());
            end_send(output, sent)
        }
        SwitchAnswer::Nothing => Turned::Idle,
        _ => {
            output.shut();
            Turned::Over
        }
    }
}

/// Shuts the output behind a send that was not made.
fn end_send<U: LinkOut>(output: &mut U, sent: Result<(), IoFault>) -> Turned
    ensures ends { EndsSend sent result (U.departures output.old) (U.departures output.new) }
    ensures steady { U.faults output.new ≡ U.faults output.old }
{
    match sent {
        Ok(()) => Turned::Sent,
        Err(IoFault::Failed) => {
            output.shut();
            Turned::Failed
        }
        Err(IoFault::NoMemory) => {
            output.shut();
            Turned::NoMemory
        }
    }
}
