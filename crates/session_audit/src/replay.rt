//! The replay at one end: what is seen of it is done again by an end of the core.

ghost use Rattle.std.specs.Prelude.{◌≡◌, ◌≤◌, ◌++◌, ◌∷◌, [], ℕ, Bool, List, IfOk, OnOk, length};
ghost use Rattle.std.specs.Bool.{Decides};
ghost use Rattle.chan_values.specs.Limits.{max_payload};
ghost use Rattle.channel_core.specs.Call.{Entry};
ghost use Rattle.channel_core.specs.Numbers.{has_number};
ghost use Rattle.channel_core.specs.Resending.{sent_since_opened};
ghost use Rattle.channel_core.specs.Condition.{IsNumbered};
ghost use Rattle.channel_core.specs.declared.call.EndCall.TheVariants as EndCall;
ghost use Rattle.channel_core.specs.declared.message.Outgoing.{Outgoing};
ghost use Rattle.session_audit.specs.Acts.{acts_of};
ghost use Rattle.session_audit.specs.Ends.{IsActable, IsAgain, IsAt, Makes, Replays};
ghost use Rattle.session_audit.specs.Replay.{calls_before, entries_of, put_call};
ghost use Rattle.session_audit.specs.declared.act.Act.TheVariants as Act;

use crate::act::Act;
use chan_values::{Item, NoMemory};
use channel_core::{End, Heard, Incoming, Outgoing, Pull};
use resend_queue::Sent;
use std::alloc::Global;

/// Makes the calls of the replay for an act, and says whether they show it. `again` says whether a
/// stream message that is given out went out before on the present connection.
pub fn replay(alloc: Global, end: &mut End, act: &Act, again: bool) -> Result<bool, NoMemory>
    requires { IsActable act.now }
    ensures { IfOk result (Replays end.old end.new act.now again) }
{
    match act {
        Act::Emits(out) => emit(alloc, end, out, again),
        Act::Hears(incoming) => hear(alloc, end, incoming),
        Act::Opens => {
            end.opened(0);
            Ok(true)
        }
        Act::Loses => {
            end.lost();
            Ok(true)
        }
        Act::Closes => {
            end.close();
            Ok(true)
        }
    }
}

/// Gives a message out.
fn emit(alloc: Global, end: &mut End, out: &Outgoing, again: bool) -> Result<bool, NoMemory>
    requires { IsActable (Act.Emits out.now) }
    ensures { IfOk result (Replays end.old end.new (Act.Emits out.now) again) }
{
    match out {
        Outgoing::Stream(sent) => {
            prepare(alloc, end, sent, again)?;
            pull(end, 0, out)
        }
        Outgoing::Ack { date, .. } => pull(end, *date, out),
    }
}

/// Puts in a stream message that is new, or lets its timer expire where it goes out again.
fn prepare(alloc: Global, end: &mut End, sent: &Sent, again: bool) -> Result<(), NoMemory>
    requires { length sent.now.item.payload ≤ max_payload }
    ensures { OnOk result ((w : ℕ) (h : List Entry) → IsAt w end.old h
        → again ≡ has_number (sent_since_opened h) sent.now.seq
        → IsAt w end.new (h ++ entries_of w h (calls_before h sent.now))) }
{
    let next = end.look().next;
    if sent.seq == next {
        put(alloc, end, sent)
    } else {
        if again {
            let _tick = end.tick(u64::MAX);
        }
        Ok(())
    }
}

/// Puts in a stream message, as the last where it is the last.
fn put(alloc: Global, end: &mut End, sent: &Sent) -> Result<(), NoMemory>
    requires { length sent.now.item.payload ≤ max_payload }
    ensures { OnOk result (Makes end.old end.new (put_call sent.now ∷ [])) }
{
    let item = sent.item.copy(alloc)?;
    if sent.last {
        let _put = end.put_last(item, sent.id, sent.date);
        Ok(())
    } else {
        let _put = end.put(item, sent.id, sent.date);
        Ok(())
    }
}

/// Pulls, and says whether the message came out.
fn pull(end: &mut End, now: u64, out: &Outgoing) -> Result<bool, NoMemory>
    ensures made { OnOk result (Makes end.old end.new (EndCall.Pull now ∷ [])) }
    ensures told { IfOk result (λ done. (w : ℕ) (h : List Entry) → IsAt w end.old h
        → Decides done (acts_of (entries_of w h (EndCall.Pull now ∷ [])) ≡ Act.Emits out.now ∷ [])) }
{
    match end.pull(now) {
        Pull::Emit(given) => Ok(is_same(&given, out)),
        Pull::Idle => Ok(false),
        Pull::NoMemory => Err(NoMemory),
    }
}

/// Whether two messages are the same.
fn is_same(a: &Outgoing, b: &Outgoing) -> bool
    ensures { Decides result (a.now ≡ b.now) }
{
    match a {
        Outgoing::Stream(sent) => is_sent(sent, b),
        Outgoing::Ack { seq, id, date } => is_ack(*seq, id, *date, b),
    }
}

/// Whether a message is this stream message.
fn is_sent(sent: &Sent, out: &Outgoing) -> bool
    ensures { Decides result (Outgoing.Stream sent.now ≡ out.now) }
{
    match out {
        Outgoing::Stream(other) => is_same_sent(sent, other),
        Outgoing::Ack { .. } => false,
    }
}

/// Whether two stream messages are the same.
fn is_same_sent(a: &Sent, b: &Sent) -> bool
    ensures { Decides result (a.now ≡ b.now) }
{
    a.seq == b.seq
        && a.id == b.id
        && a.date == b.date
        && a.last == b.last
        && is_same_item(&a.item, &b.item)
}

/// Whether two items are the same.
pub fn is_same_item(a: &Item, b: &Item) -> bool
    ensures { Decides result (a.now ≡ b.now) }
{
    a.ptype == b.ptype && a.payload.as_slice() == b.payload.as_slice()
}

/// Whether a message is this acknowledgement.
fn is_ack(seq: u64, id: &[u8; 16], date: u64, out: &Outgoing) -> bool
    ensures { Decides result (Outgoing.Ack seq id.now date ≡ out.now) }
{
    match out {
        Outgoing::Ack {
            seq: other_seq,
            id: other_id,
            date: other_date,
        } => seq == *other_seq && *id == *other_id && date == *other_date,
        Outgoing::Stream(_) => false,
    }
}

/// Hears a message at the moment 0.
fn hear(alloc: Global, end: &mut End, incoming: &Incoming) -> Result<bool, NoMemory>
    requires { IsNumbered incoming.now }
    ensures { IfOk result (λ done. (again : Bool) → Replays end.old end.new (Act.Hears incoming.now) again done) }
{
    let incoming = copy(alloc, incoming)?;
    match end.heard(0, incoming) {
        Heard::NoMemory(_) => Err(NoMemory),
        _ => Ok(true),
    }
}

/// The same message a second time.
fn copy(alloc: Global, incoming: &Incoming) -> Result<Incoming, NoMemory>
    ensures { IfOk result (λ copied. copied ≡ incoming.now) }
{
    match incoming {
        Incoming::Stream {
            seq,
            id,
            item,
            last,
        } => Ok(Incoming::Stream {
            seq: *seq,
            id: *id,
            item: item.copy(alloc)?,
            last: *last,
        }),
        Incoming::Ack { seq } => Ok(Incoming::Ack { seq: *seq }),
        Incoming::Pause => Ok(Incoming::Pause),
        Incoming::Start => Ok(Incoming::Start),
        Incoming::Closing { output } => Ok(Incoming::Closing {
            output: output.copy(alloc)?,
        }),
    }
}
