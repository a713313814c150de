//! A capture as lines.

ghost use Rattle.std.specs.Prelude.{◌≡◌, ◌≢◌, ◌+◌, ◌^◌, ◌<◌, ◌≤◌, ◌⊎◌, ℕ, List, Option, None, Some, Ok, Err, IfOk, OnOk, OnErr};
ghost use Rattle.std.specs.List.{sum_by};
ghost use Rattle.chan_io.specs.Faults.{Rises};
ghost use Rattle.chan_io.specs.Sinks.{Output, Writes, WritesPart};
ghost use Rattle.chan_io.specs.declared.failed.IoFault.TheVariants as IoFault;
ghost use Rattle.agent_message.specs.Captures.{IsCapture, piece_length};
ghost use Rattle.agent_message.specs.declared.capture_fault.CaptureFault.{CaptureFault};
ghost use Rattle.agent_message.specs.declared.message.Message.{Message};
ghost use Rattle.lab_show.specs.Lines.{show_lines};
ghost use Rattle.lab_show.specs.Listings.{Shows, ShowsPart, due};
ghost use Rattle.lab_show.specs.declared.stop.ShowStop.TheVariants as ShowStop;

use crate::line::push_line;
use crate::stop::ShowStop;
use agent_message::{CaptureReader, Message};
use chan_io::{IoFault, Sink};
use std::alloc::Global;

/// How many bytes of the capture are read before the lines of their messages are written.
const PART: usize = 16_384;

/// What a piece of a capture has beside its payload: its length in 4 bytes, and a header of 120.
const PIECE_HEADER: u64 = 124;

/// Writes a line for each message of a capture, and tells the fault of the capture if it has one.
///
/// Where no write fails, the end that is due comes, or memory was wanted (`complete`).
pub fn show<K: Sink>(alloc: Global, capture: &[u8], sink: &mut K) -> Result<(), ShowStop>
    ensures ok { OnOk result (Shows capture.now None (K.output sink.old) (K.output sink.new)) }
    ensures fault { (fault : CaptureFault) → result ≡ Err (ShowStop.Fault fault)
        → Shows capture.now (Some fault) (K.output sink.old) (K.output sink.new) }
    ensures write { result ≡ Err ShowStop.Write → Rises (K.faults sink.old) (K.faults sink.new)
        × ShowsPart capture.now (K.output sink.old) (K.output sink.new) }
    ensures no_memory { result ≡ Err ShowStop.NoMemory
        → ShowsPart capture.now (K.output sink.old) (K.output sink.new) }
    ensures steady { result ≢ Err ShowStop.Write → K.faults sink.new ≡ K.faults sink.old }
    ensures counted { K.faults sink.old ≤ K.faults sink.new }
    ensures complete { (messages : List Message) (fault : Option CaptureFault)
        → IsCapture capture.now messages fault → ¬ Rises (K.faults sink.old) (K.faults sink.new)
        → (result ≡ due fault) ⊎ (result ≡ Err ShowStop.NoMemory) }
{
    let mut reader = CaptureReader::new(alloc);
    let mut at = 0;
    let mut coming = capture;
    while !coming.is_empty() {
        let (part, behind) = coming.split_at(PART.min(coming.len()));
        let captured = reader.feed(part)?;
        at = write_lines(alloc, at, captured.messages.as_slice(), sink)?;
        coming = behind;
    }
    match reader.end() {
        None => Ok(()),
        Some(fault) => Err(ShowStop::Fault(fault)),
    }
}

/// Writes the lines of messages whose pieces stand one behind another from a place on, and tells
/// where the next piece begins.
fn write_lines<K: Sink>(
    alloc: Global,
    at: u64,
    messages: &[Message],
    sink: &mut K,
) -> Result<u64, IoFault>
    requires { at + sum_by piece_length messages.now < 2 ^ 64 }
    ensures place { IfOk result (λ behind. behind ≡ at + sum_by piece_length messages.now) }
    ensures ok { OnOk result
        (Writes (show_lines at messages.now) (K.output sink.old) (K.output sink.new)) }
    ensures err { OnErr result
        (WritesPart (show_lines at messages.now) (K.output sink.old) (K.output sink.new)) }
    ensures failed { result ≡ Err IoFault.Failed → Rises (K.faults sink.old) (K.faults sink.new) }
    ensures steady { result ≢ Err IoFault.Failed → K.faults sink.new ≡ K.faults sink.old }
    ensures counted { K.faults sink.old ≤ K.faults sink.new }
{
    let mut lines = Vec::new(alloc);
    let mut next = at;
    for message in messages {
        push_line(&mut lines, next, message)?;
        next += PIECE_HEADER + message.payload.len() as u64;
    }
    if lines.is_empty() {
        return Ok(next);
    }
    sink.write(&lines)?;
    Ok(next)
}
