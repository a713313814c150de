//! The record of what a line of a script shows.

ghost use Rattle.std.specs.Prelude.{◌≡◌, []};
ghost use Rattle.std.specs.List.{cons_option};
ghost use Rattle.std.specs.Option.{option_copied};
ghost use Rattle.lab_run.specs.Printing.{Prints, printout};
ghost use Rattle.lab_run.specs.Steps.{emission_at};
ghost use Rattle.session_audit.specs.Journal.{journal};
ghost use Rattle.lab_journal.specs.Recording.{emission_record, hearing_record, tick_record};

use crate::writer::Writer;
use chan_io::Sink;
use chan_values::{Bytes, Side};
use lab_run::Stop;
use lab_script::{Outcome, Which};

/// The kind of a message that an end gave out.
const EMITTED: u8 = 0;

/// Of a message that came to it.
pub const HEARD: u8 = 1;

/// Of a new connection.
pub const OPENED: u8 = 2;

/// Of the loss of one.
pub const LOST: u8 = 3;

/// Of a close.
pub const CLOSED: u8 = 4;

/// Adds the record of what a pull gave out, if it gave out anything.
pub fn add_emission<K: Sink>(
    writer: &mut Writer,
    side: Side,
    outcome: &Outcome,
    sink: &mut K,
) -> Result<(), Stop>
    ensures { let at = printout K.output K.faults in
        Prints (journal (cons_option (emission_record side outcome.now) [])) result
        (at writer.old sink.old) (at writer.new sink.new) }
{
    match outcome {
        Outcome::Emit { encoding, .. } => writer.add(sink, side, EMITTED, encoding.as_slice()),
        _ => Ok(()),
    }
}

/// Adds the record of one of these emissions, which comes to an end, if there is such a one.
pub fn add_heard<K: Sink>(
    writer: &mut Writer,
    side: Side,
    sent: &[Bytes],
    which: Which,
    sink: &mut K,
) -> Result<(), Stop>
    ensures { let at = printout K.output K.faults in
        Prints (journal (cons_option (hearing_record side (emission_at sent.now which)) [])) result
        (at writer.old sink.old) (at writer.new sink.new) }
{
    match emission(sent, which) {
        Some(bytes) => writer.add(sink, side, HEARD, bytes.as_slice()),
        None => Ok(()),
    }
}

/// The emission that a line means.
fn emission(sent: &[Bytes], which: Which) -> Option<&Bytes>
    ensures { option_copied result ≡ emission_at sent.now which }
{
    match which {
        Which::Number(k) => sent.get(k as usize),
        Which::Last => sent.last(),
    }
}

/// Adds the record of a tick, if the end gave up at it: it is closed then.
pub fn add_tick<K: Sink>(
    writer: &mut Writer,
    side: Side,
    outcome: &Outcome,
    sink: &mut K,
) -> Result<(), Stop>
    ensures { let at = printout K.output K.faults in
        Prints (journal (cons_option (tick_record side outcome.now) [])) result
        (at writer.old sink.old) (at writer.new sink.new) }
{
    match outcome {
        Outcome::GaveUp(_) => writer.add(sink, side, CLOSED, &[]),
        _ => Ok(()),
    }
}
