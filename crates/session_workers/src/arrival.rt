//! A binary message that came, and what is done with it.

ghost use Rattle.std.specs.Prelude.{◌≡◌, ℕ, IfOk};
ghost use Rattle.turn_lock.specs.Seats.{IsSeatOf};
ghost use Rattle.session_run.specs.Adds.{AddsCalls};
ghost use Rattle.session_workers.specs.ReaderSteps.{IsCountFor, MayMeet, added_end, is_full, meeting_end, released_end};
ghost use Rattle.session_workers.specs.Readers.{Says, wants_memory};
ghost use Rattle.session_workers.specs.Reading.{Met, adding, arrived, counted, meeting_calls, meeting_shelf_calls, parcels_of};

use crate::link_setting::LinkSetting;
use crate::read_state::ReadEnd;
use crate::reply::heard_end;
use chan_io::Clock;
use chan_values::{Bytes, Items, NoMemory, Side};
use channel_core::wire::{InRefusal, incoming};
use channel_core::{Heard, Incoming};
use session_run::end_seat::heard;
use session_run::shelf_seat::{add, count};
use session_run::{Count, Held, Parcel, Shelf};
use std::alloc::Global;
use std::sync::Wait;
use turn_lock::{Seat, TurnLock};

/// Hears a binary message, and adds what it released to the shelf. One that is refused is dropped,
/// and so is a stream message that finds the shelf full. Answers how the reader ends, if it does.
pub(crate) fn meet_message<R: Wait, C: Clock>(
    rt: &R,
    alloc: Global,
    setting: &LinkSetting,
    ends: &TurnLock<Held>,
    end: &mut Seat<Held>,
    shelf: &TurnLock<Shelf>,
    shelf_seat: &mut Seat<Shelf>,
    clock: &C,
    bytes: &Bytes,
) -> Option<ReadEnd>
    requires ends { IsSeatOf ends.now end.old }
    requires shelf { IsSeatOf shelf.now shelf_seat.old }
    ensures { (met : Met) × record {
      may : MayMeet setting.now bytes.now met;
      end : AddsCalls end.old (meeting_calls met) end.new;
      shelf : AddsCalls shelf_seat.old (meeting_shelf_calls met) shelf_seat.new;
      over : result ≡ meeting_end met;
    } }
{
    let message = match message_of(alloc, setting.side, bytes.as_slice()) {
        Ok(Some(message)) => message,
        Ok(None) => return None,
        Err(NoMemory) => return Some(ReadEnd::NoMemory),
    };
    let counted = count_before(rt, shelf, shelf_seat, &message);
    if is_full(setting.window, &counted) {
        return None;
    }
    let answer = heard(rt, ends, end, clock, message, clock.now());
    add_released(rt, shelf, shelf_seat, clock, answer)
}

/// What the bytes of a message say; none where they are refused.
fn message_of(alloc: Global, side: Side, bytes: &[u8]) -> Result<Option<Incoming>, NoMemory>
    ensures { IfOk result (Says side bytes.now) }
{
    match incoming(alloc, side, bytes) {
        Ok(message) => Ok(Some(message)),
        Err(refusal) => {
            if wants_memory(&refusal) {
                Err(NoMemory)
            } else {
                Ok(None)
            }
        }
    }
}

/// Whether a message was refused for want of memory.
fn wants_memory(refusal: &InRefusal) -> bool
    ensures { result ≡ wants_memory refusal.now }
{
    match refusal {
        InRefusal::NoMemory => true,
        _ => false,
    }
}

/// Counts the shelf before a stream message.
fn count_before<R: Wait>(
    rt: &R,
    shelf: &TurnLock<Shelf>,
    seat: &mut Seat<Shelf>,
    message: &Incoming,
) -> Option<Count>
    requires { IsSeatOf shelf.now seat.old }
    ensures calls { AddsCalls seat.old (counted result) seat.new }
    ensures stream { IsCountFor message.now result }
{
    match message {
        Incoming::Stream { .. } => Some(count(rt, shelf, seat)),
        _ => None,
    }
}

/// Whether more parcels wait than the window.
fn is_full(window: u64, counted: &Option<Count>) -> bool
    ensures { result ≡ is_full window counted.now }
{
    match counted {
        Some(count) => window < count.parcels,
        None => false,
    }
}

/// Adds what this answer released to the shelf, and tells how the reader ends, if it does.
fn add_released<R: Wait, C: Clock>(
    rt: &R,
    shelf: &TurnLock<Shelf>,
    seat: &mut Seat<Shelf>,
    clock: &C,
    heard: Heard,
) -> Option<ReadEnd>
    requires { IsSeatOf shelf.now seat.old }
    ensures { (added : ℕ) × record {
      calls : AddsCalls seat.old (adding (parcels_of heard) added) seat.new;
      over : result ≡ released_end heard added;
    } }
{
    match heard {
        Heard::Released(items) => add_parcels(rt, shelf, seat, clock, items, false),
        Heard::Finished(items) => add_parcels(rt, shelf, seat, clock, items, true),
        heard => heard_end(&heard),
    }
}

/// Adds items to the shelf one by one, and behind the last item of the other end that all arrived.
fn add_parcels<R: Wait, C: Clock>(
    rt: &R,
    shelf: &TurnLock<Shelf>,
    seat: &mut Seat<Shelf>,
    clock: &C,
    items: Items,
    last: bool,
) -> Option<ReadEnd>
    requires { IsSeatOf shelf.now seat.old }
    ensures { (added : ℕ) × record {
      calls : AddsCalls seat.old (adding (arrived items last) added) seat.new;
      over : result ≡ added_end (arrived items last) added;
    } }
{
    for item in items.into_vec() {
        if !add(rt, shelf, seat, clock, Parcel::Arrived(item)) {
            return Some(ReadEnd::NoMemory);
        }
    }
    if !last {
        return None;
    }
    if !add(rt, shelf, seat, clock, Parcel::Finished) {
        return Some(ReadEnd::NoMemory);
    }
    None
}
