//! What waits for one connection.

ghost use Rattle.std.specs.Prelude.{◌≡◌, ◌+◌, ◌<◌, OnOk, is_ok, slice_get, vec_len};
ghost use Rattle.relay_switch.specs.Moves.{left, taking};
ghost use Rattle.relay_switch.specs.Lines.{bytes_in, closed_if, conn_of, empty_line, opened, popped, weight};

use chan_values::NoMemory;
use relay_core::Action;
use std::alloc::Global;
use std::collections::VecDeque;
use std::marker::Model;

/// The most bytes of texts and messages that may wait for one connection when a message is forwarded
/// to it, that message among them.
pub const MAX_WAITING: u64 = 16_777_216;

/// What waits for a connection, oldest first, and whether the connection is open.
#[derive(Drop)]
pub(crate) struct Line {
    waiting: VecDeque<Action>,
    // The bytes of the texts and messages that wait.
    bytes: u64,
    is_open: bool,
}

impl Model for Line {
    ghost use Rattle.std.specs.Prelude.{◌≡◌};
    ghost use Rattle.relay_switch.specs.Lines.{LineState, bytes_in};

    ghost Value = { LineState };

    ghost view = { λ l. record { waiting = l.waiting.items; is_open = l.is_open } };

    ghost invariant = { λ l. l.bytes ≡ bytes_in l.waiting.items };
}

impl Line {
    /// The line of a connection that was not let in.
    pub(crate) fn new(alloc: Global) -> Line
        ensures { result ≡ empty_line }
    {
        Line {
            waiting: VecDeque::new(alloc),
            bytes: 0,
            is_open: false,
        }
    }

    /// How many bytes of texts and messages wait.
    pub(crate) fn bytes(&self) -> u64
        ensures { result ≡ bytes_in self.now.waiting }
    {
        self.bytes
    }

    /// Whether the connection is open.
    pub(crate) fn is_open(&self) -> bool
        ensures { result ≡ self.now.is_open }
    {
        self.is_open
    }

    /// Notes that the connection is open.
    pub(crate) fn open(&mut self)
        ensures { self.new ≡ opened self.old }
    {
        self.is_open = true;
    }

    /// Notes that the connection is not open, where this says so.
    pub(crate) fn close_if(&mut self, ends: bool)
        ensures { self.new ≡ closed_if ends self.old }
    {
        self.is_open = self.is_open && !ends;
    }

    /// Takes the first of these actions behind what waits, if there is memory for it.
    pub(crate) fn take_over(&mut self, added: &mut Vec<Action>) -> Result<(), NoMemory>
        requires { 0 < vec_len added.old }
        ensures line { self.new ≡ taking (is_ok result) added.old.items self.old }
        ensures rest { added.new.items ≡ left (is_ok result) added.old.items }
        ensures shorter { OnOk result (vec_len added.new + 1 ≡ vec_len added.old) }
    {
        self.waiting.reserve(1)?;
        let more = weight(&added[0]);
        if more > u64::MAX - self.bytes {
            return Err(NoMemory);
        }
        let action = added.remove(0);
        self.waiting.push_back_reserved(action);
        self.bytes += more;
        Ok(())
    }

    /// Takes the first of what waits.
    pub(crate) fn pop(&mut self) -> Option<Action>
        ensures first { result ≡ slice_get self.old.waiting 0 }
        ensures rest { self.new ≡ popped self.old }
    {
        let action = self.waiting.pop_front()?;
        self.bytes -= weight(&action);
        Some(action)
    }
}

/// The connection at which this is done.
pub(crate) fn conn_of(action: &Action) -> u64
    ensures { result ≡ conn_of action.now }
{
    match action {
        Action::Text(conn, _) => *conn,
        Action::Send(conn, _) => *conn,
        Action::Drop(conn) => *conn,
    }
}

/// The bytes of a text or a message.
fn weight(action: &Action) -> u64
    ensures { result ≡ weight action.now }
{
    match action {
        Action::Text(_, bytes) => bytes.len() as u64,
        Action::Send(_, bytes) => bytes.len() as u64,
        Action::Drop(_) => 0,
    }
}
