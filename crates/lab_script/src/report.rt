//! Writing a line of a report.

ghost use Rattle.std.specs.Prelude.{◌≡◌, ◌∷◌, ◌++◌, [], codes, length, map, decimal, OnOk, OnErr};
ghost use Rattle.lab_script.specs.Appending.{Keeps, spaced};
ghost use Rattle.lab_script.specs.Words.{hex_text};
ghost use Rattle.lab_script.specs.Report.{item_text, outcome_words, relay_outcome_words, report_line, side_words, stream_outcome_words};

use crate::hexadecimal::push_bytes;
use crate::outcome::{Outcome, RelayOutcome, StreamOutcome};
use crate::verb::Verb;
use crate::word::{letter_of, push_number};
use chan_values::{Item, NoMemory, Side};

/// Puts a line of the report at the end. On want of memory nothing is put.
pub fn push_line(
    out: &mut Vec<u8>,
    number: u64,
    verb: Verb,
    side: Option<Side>,
    outcome: &Outcome,
) -> Result<(), NoMemory>
    ensures ok { OnOk result
        (out.new.items ≡ out.old.items ++ report_line number verb side outcome.now) }
    ensures err { OnErr result (out.new.items ≡ out.old.items) }
{
    let before = out.len();
    let pushed = push_words(out, number, verb, side, outcome);
    if pushed.is_err() {
        out.truncate(before);
    }
    pushed
}

// The words and the line feed. On want of memory a part of them is put.
fn push_words(
    out: &mut Vec<u8>,
    number: u64,
    verb: Verb,
    side: Option<Side>,
    outcome: &Outcome,
) -> Result<(), NoMemory>
    ensures ok { OnOk result
        (out.new.items ≡ out.old.items ++ report_line number verb side outcome.now) }
    ensures err { OnErr result (Keeps out.old.items out.new.items) }
{
    push_number(out, number)?;
    push_word(out, verb.text())?;
    push_side(out, side)?;
    push_outcome(out, outcome)?;
    out.push(b'\n')?;
    Ok(())
}

fn push_side(out: &mut Vec<u8>, side: Option<Side>) -> Result<(), NoMemory>
    ensures ok { OnOk result (out.new.items ≡ out.old.items ++ spaced (side_words side)) }
    ensures err { OnErr result (Keeps out.old.items out.new.items) }
{
    match side {
        None => Ok(()),
        Some(side) => push_word(out, letter_of(side)),
    }
}

fn push_outcome(out: &mut Vec<u8>, outcome: &Outcome) -> Result<(), NoMemory>
    ensures ok { OnOk result
        (out.new.items ≡ out.old.items ++ spaced (outcome_words outcome.now)) }
    ensures err { OnErr result (Keeps out.old.items out.new.items) }
{
    match outcome {
        Outcome::Seq(n) => push_counted(out, "seq", *n),
        Outcome::Full => push_word(out, "full"),
        Outcome::Closed => push_word(out, "closed"),
        Outcome::Past => push_word(out, "past"),
        Outcome::Spent => push_word(out, "spent"),
        Outcome::Emit { number, encoding } => push_emit(out, *number, encoding.as_slice()),
        Outcome::Idle => push_word(out, "idle"),
        Outcome::Released(items) => push_in_order(out, "released", items.as_slice()),
        Outcome::Finished(items) => push_in_order(out, "finished", items.as_slice()),
        Outcome::Late => push_word(out, "late"),
        Outcome::Beyond => push_word(out, "beyond"),
        Outcome::PastEnd(n) => push_counted(out, "past-end", *n),
        Outcome::Acked(n) => push_counted(out, "acked", *n),
        Outcome::UnknownAck(n) => push_counted(out, "unknown-ack", *n),
        Outcome::Paused => push_word(out, "paused"),
        Outcome::Started => push_word(out, "started"),
        Outcome::Ended => push_word(out, "ended"),
        Outcome::AfterClose => push_word(out, "after-close"),
        Outcome::Absent => push_word(out, "absent"),
        Outcome::Refused(n) => push_counted(out, "refused", *n),
        Outcome::Passed => push_word(out, "passed"),
        Outcome::Nothing => push_word(out, "nothing"),
        Outcome::Due(n) => push_counted(out, "due", *n),
        Outcome::GaveUp(n) => push_counted(out, "gave-up", *n),
        Outcome::Quiet => Ok(()),
        Outcome::Stream(outcome) => push_stream_outcome(out, outcome),
        Outcome::Relay(outcome) => push_relay_outcome(out, outcome),
    }
}

fn push_stream_outcome(out: &mut Vec<u8>, outcome: &StreamOutcome) -> Result<(), NoMemory>
    ensures ok { OnOk result
        (out.new.items ≡ out.old.items ++ spaced (stream_outcome_words outcome.now)) }
    ensures err { OnErr result (Keeps out.old.items out.new.items) }
{
    match outcome {
        StreamOutcome::Sid(n) => push_counted(out, "sid", u64::from(*n)),
        StreamOutcome::TooMany => push_word(out, "too-many"),
        StreamOutcome::IdsSpent => push_word(out, "ids-spent"),
        StreamOutcome::Done => push_word(out, "done"),
        StreamOutcome::Unknown => push_word(out, "unknown"),
        StreamOutcome::Empty => push_word(out, "empty"),
        StreamOutcome::Taken(bytes) => push_taken(out, bytes.as_slice()),
        StreamOutcome::Opened(n) => push_counted(out, "opened", u64::from(*n)),
        StreamOutcome::Ready(n) => push_counted(out, "ready", u64::from(*n)),
        StreamOutcome::Ended(n) => push_counted(out, "ended", u64::from(*n)),
        StreamOutcome::Refused(n) => push_counted(out, "refused", u64::from(*n)),
    }
}

fn push_relay_outcome(out: &mut Vec<u8>, outcome: &RelayOutcome) -> Result<(), NoMemory>
    ensures ok { OnOk result
        (out.new.items ≡ out.old.items ++ spaced (relay_outcome_words outcome.now)) }
    ensures err { OnErr result (Keeps out.old.items out.new.items) }
{
    match outcome {
        RelayOutcome::Connection(n) => push_counted(out, "conn", *n),
        RelayOutcome::Sent => push_word(out, "sent"),
        RelayOutcome::Dropped => push_word(out, "dropped"),
    }
}

// A space and bytes.
fn push_taken(out: &mut Vec<u8>, bytes: &[u8]) -> Result<(), NoMemory>
    ensures ok { OnOk result
        (out.new.items ≡ out.old.items ++ spaced (hex_text bytes.now ∷ [])) }
    ensures err { OnErr result (Keeps out.old.items out.new.items) }
{
    out.push(b' ')?;
    push_bytes(out, bytes)
}

// `emit`, the number and the encoding.
fn push_emit(out: &mut Vec<u8>, number: u64, encoding: &[u8]) -> Result<(), NoMemory>
    ensures ok { OnOk result (out.new.items ≡ out.old.items
        ++ spaced (codes "emit" ∷ decimal number ∷ hex_text encoding.now ∷ [])) }
    ensures err { OnErr result (Keeps out.old.items out.new.items) }
{
    push_counted(out, "emit", number)?;
    out.push(b' ')?;
    push_bytes(out, encoding)
}

// A word, how many items there are, and the items.
fn push_in_order(out: &mut Vec<u8>, word: &str, items: &[Item]) -> Result<(), NoMemory>
    ensures ok { OnOk result (out.new.items ≡ out.old.items
        ++ spaced (word.now ∷ decimal (length items.now) ∷ map item_text items.now)) }
    ensures err { OnErr result (Keeps out.old.items out.new.items) }
{
    push_counted(out, word, items.len() as u64)?;
    push_items(out, items)
}

fn push_items(out: &mut Vec<u8>, items: &[Item]) -> Result<(), NoMemory>
    ensures ok { OnOk result
        (out.new.items ≡ out.old.items ++ spaced (map item_text items.now)) }
    ensures err { OnErr result (Keeps out.old.items out.new.items) }
{
    for item in items {
        push_item(out, item)?;
    }
    Ok(())
}

// A space, the type, a colon and the payload.
fn push_item(out: &mut Vec<u8>, item: &Item) -> Result<(), NoMemory>
    ensures ok { OnOk result (out.new.items ≡ out.old.items ++ 32 ∷ item_text item.now) }
    ensures err { OnErr result (Keeps out.old.items out.new.items) }
{
    out.push(b' ')?;
    push_number(out, u64::from(item.ptype))?;
    out.push(b':')?;
    push_bytes(out, item.payload.as_slice())
}

// A word and a number.
fn push_counted(out: &mut Vec<u8>, word: &str, n: u64) -> Result<(), NoMemory>
    ensures ok { OnOk result
        (out.new.items ≡ out.old.items ++ spaced (word.now ∷ decimal n ∷ [])) }
    ensures err { OnErr result (Keeps out.old.items out.new.items) }
{
    push_word(out, word)?;
    out.push(b' ')?;
    push_number(out, n)
}

// A space and a word.
fn push_word(out: &mut Vec<u8>, word: &str) -> Result<(), NoMemory>
    ensures ok { OnOk result (out.new.items ≡ out.old.items ++ 32 ∷ word.now) }
    ensures err { OnErr result (Keeps out.old.items out.new.items) }
{
    out.push(b' ')?;
    out.extend_from_slice(word.as_bytes())?;
    Ok(())
}
