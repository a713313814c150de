//! One record of a journal.

ghost use Rattle.std.specs.Prelude.{◌≡◌, ◌≤◌, ◌∷◌, None, length};
ghost use Rattle.std.specs.Option.{IfSome};
ghost use Rattle.chan_values.specs.declared.side.Side.{Side};
ghost use Rattle.session_audit.specs.Journal.{letter};
ghost use Rattle.session_audit.specs.Readings.{IsReading};

use crate::act::Act;
use crate::emitted::emitted;
use crate::verdict::Why;
use chan_values::Side;
use channel_core::wire::{InRefusal, incoming};
use std::alloc::Global;

/// The letter of the plugin's end.
const PLUGIN: u8 = b'P';

/// The letter of the agent's end.
const AGENT: u8 = b'A';

/// What a record says.
#[derive(Debug, Drop)]
pub enum Reading {
    /// This was seen of the end of this side.
    Says(Side, Act),
    /// The end of this side gave out a message that no end of this side encodes so.
    Foreign(Side),
    /// Its form has this fault.
    Faulty(Why),
    /// There was no memory.
    NoMemory,
}

/// What a record says: it has a byte for its end, one for its kind, and a rest.
pub fn read(alloc: Global, bytes: &[u8]) -> Reading
    requires { 2 ≤ length bytes.now }
    ensures { IsReading bytes.now result }
{
    read_parts(alloc, bytes[0], bytes[1], &bytes[2..])
}

/// The same of its two bytes and the rest.
fn read_parts(alloc: Global, end: u8, kind: u8, rest: &[u8]) -> Reading
    ensures { IsReading (end ∷ kind ∷ rest.now) result }
{
    match side_of(end) {
        Some(side) => read_kind(alloc, side, kind, rest),
        None => Reading::Faulty(Why::WrongEnd(end)),
    }
}

/// The end that a byte names.
fn side_of(byte: u8) -> Option<Side>
    ensures named { IfSome result (λ side. byte ≡ letter side) }
    ensures none { result ≡ None → (side : Side) → byte ≡ letter side → ⊥ }
{
    if byte == PLUGIN {
        Some(Side::Plugin)
    } else if byte == AGENT {
        Some(Side::Agent)
    } else {
        None
    }
}

/// A record of the end of this side.
fn read_kind(alloc: Global, side: Side, kind: u8, rest: &[u8]) -> Reading
    ensures { IsReading (letter side ∷ kind ∷ rest.now) result }
{
    if kind == 0 {
        emitted_record(alloc, side, rest)
    } else if kind == 1 {
        heard_record(alloc, side, rest)
    } else if kind <= 4 {
        bare_record(side, kind, rest)
    } else {
        Reading::Faulty(Why::Kind(kind))
    }
}

/// A record of a message that the end gave out.
fn emitted_record(alloc: Global, side: Side, message: &[u8]) -> Reading
    ensures { IsReading (letter side ∷ 0 ∷ message.now) result }
{
    match emitted(alloc, side.other(), message) {
        Ok(found) => match found {
            Some(out) => Reading::Says(side, Act::Emits(out)),
            None => Reading::Foreign(side),
        },
        Err(refusal) => match refusal {
            InRefusal::NoMemory => Reading::NoMemory,
            _ => Reading::Faulty(Why::Message(refusal)),
        },
    }
}

/// A record of a message that came to the end.
fn heard_record(alloc: Global, side: Side, message: &[u8]) -> Reading
    ensures { IsReading (letter side ∷ 1 ∷ message.now) result }
{
    match incoming(alloc, side, message) {
        Ok(heard) => Reading::Says(side, Act::Hears(heard)),
        Err(refusal) => match refusal {
            InRefusal::NoMemory => Reading::NoMemory,
            _ => Reading::Faulty(Why::Message(refusal)),
        },
    }
}

/// A record of an opening, a loss or a close, which has nothing behind its kind.
fn bare_record(side: Side, kind: u8, rest: &[u8]) -> Reading
    requires from { 2 ≤ kind }
    requires to { kind ≤ 4 }
    ensures { IsReading (letter side ∷ kind ∷ rest.now) result }
{
    if !rest.is_empty() {
        return Reading::Faulty(Why::Extra(rest.len() as u64));
    }
    if kind == 2 {
        Reading::Says(side, Act::Opens)
    } else if kind == 3 {
        Reading::Says(side, Act::Loses)
    } else {
        Reading::Says(side, Act::Closes)
    }
}
