//! What the relay replies to an opening, and what is done then.

ghost use Rattle.std.specs.Prelude.{◌≡◌, ℕ, [], ◌∷◌, IfOk};
ghost use Rattle.turn_lock.specs.Seats.{IsSeatOf};
ghost use Rattle.channel_core.specs.declared.answer.Heard.{Heard};
ghost use Rattle.channel_core.specs.declared.call.EndAnswer.TheVariants as EndAnswer;
ghost use Rattle.channel_core.specs.declared.call.EndCall.TheVariants as EndCall;
ghost use Rattle.channel_core.specs.declared.message.Incoming.TheVariants as Incoming;
ghost use Rattle.session_run.specs.Adds.{AddsCalls};
ghost use Rattle.session_workers.specs.Openings.{Replies, SaysReply};
ghost use Rattle.session_workers.specs.ReaderSteps.{MayTake, after_reply, heard_end};
ghost use Rattle.session_workers.specs.Reading.{Taken, taking_calls, taking_shelf_calls};

use crate::read_state::{ReadEnd, ReadState, TRIES};
use chan_io::Clock;
use chan_values::{Bytes, NoMemory, Text};
use channel_core::{Heard, Incoming};
use json_bodies::Opened;
use json_members::BodyFault;
use session_run::end_seat::{heard, opened};
use session_run::shelf_seat::note_opening;
use session_run::{Held, Shelf};
use std::alloc::Global;
use std::sync::Wait;
use turn_lock::{Seat, TurnLock};

/// What a reply to an opening says.
#[derive(Debug, Drop)]
pub enum Reply {
    /// The connection is open; with the digits of the token for the next opening.
    Accepted(Text),
    /// It is refused, because the session has ended.
    Ended,
    /// Every other reply, and bytes that are none.
    Other,
}

/// Does what the reply to an opening asks for: opens the end, or hears that the session has ended.
/// Every other reply is the reader's end.
pub(crate) fn take_reply<R: Wait, C: Clock>(
    rt: &R,
    alloc: Global,
    ends: &TurnLock<Held>,
    end: &mut Seat<Held>,
    shelf: &TurnLock<Shelf>,
    shelf_seat: &mut Seat<Shelf>,
    clock: &C,
    state: &mut ReadState,
    reply: Bytes,
)
    requires ends { IsSeatOf ends.now end.old }
    requires shelf { IsSeatOf shelf.now shelf_seat.old }
    ensures { (taken : Taken) × record {
      may : MayTake state.old.was_up reply taken;
      state : state.new ≡ after_reply state.old reply taken;
      end : AddsCalls end.old (taking_calls taken) end.new;
      shelf : AddsCalls shelf_seat.old (taking_shelf_calls taken) shelf_seat.new;
    } }
{
    match reply_of(alloc, reply.as_slice()) {
        Ok(Reply::Accepted(token)) => {
            opened(rt, ends, end, clock, clock.now());
            note_opening(rt, shelf, shelf_seat, clock);
            state.open(token);
        }
        Ok(Reply::Ended) => {
            if state.was_up {
                state.tries = TRIES;
                state.over = hear_closing(rt, alloc, ends, end, clock);
            } else {
                state.over = Some(ReadEnd::Refused(reply));
            }
        }
        Ok(Reply::Other) => state.over = Some(ReadEnd::Refused(reply)),
        Err(NoMemory) => state.over = Some(ReadEnd::NoMemory),
    }
}

/// Hears a closing with an empty output.
fn hear_closing<R: Wait, C: Clock>(
    rt: &R,
    alloc: Global,
    ends: &TurnLock<Held>,
    end: &mut Seat<Held>,
    clock: &C,
) -> Option<ReadEnd>
    requires { IsSeatOf ends.now end.old }
    ensures { (now : ℕ) × (heard : Heard) × record {
      end : AddsCalls end.old ((EndCall.Heard now (Incoming.Closing []), EndAnswer.Heard heard)
          ∷ []) end.new;
      over : result ≡ heard_end heard;
    } }
{
    let closing = Incoming::Closing {
        output: Text::new(String::new(alloc)),
    };
    let answer = heard(rt, ends, end, clock, closing, clock.now());
    heard_end(&answer)
}

/// How the reader ends at this answer, if it does.
pub(crate) fn heard_end(heard: &Heard) -> Option<ReadEnd>
    ensures { result ≡ heard_end heard.now }
{
    match heard {
        Heard::Ended => Some(ReadEnd::Closed),
        Heard::AfterClose => Some(ReadEnd::Closed),
        Heard::NoMemory(_) => Some(ReadEnd::NoMemory),
        _ => None,
    }
}

/// What the bytes of a reply say.
fn reply_of(alloc: Global, bytes: &[u8]) -> Result<Reply, NoMemory>
    ensures { IfOk result (Replies bytes.now) }
{
    match Opened::read(alloc, bytes) {
        Ok(opened) => Ok(said_by(opened)),
        Err(BodyFault::NoMemory) => Err(NoMemory),
        Err(_) => Ok(Reply::Other),
    }
}

/// What the body of a reply says.
fn said_by(opened: Opened) -> Reply
    ensures { SaysReply opened result }
{
    if opened.accepted {
        return Reply::Accepted(opened.resume);
    }
    if opened.ended {
        Reply::Ended
    } else {
        Reply::Other
    }
}
