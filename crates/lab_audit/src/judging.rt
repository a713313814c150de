//! A journal judged, and its verdict told.

ghost use Rattle.std.specs.Prelude.{◌≡◌, ◌≢◌, ◌≤◌, Err, OnOk};
ghost use Rattle.chan_io.specs.Faults.{Rises};
ghost use Rattle.chan_values.specs.Limits.{max_window};
ghost use Rattle.lab_audit.specs.declared.fault.JournalFault.{JournalFault};
ghost use Rattle.lab_audit.specs.declared.stop.AuditStop.{AuditStop};
ghost use Rattle.lab_audit.specs.Verdicts.{IsRefused, TellsPart, TellsTotals};

use crate::fault::JournalFault;
use crate::line::verdict_line;
use crate::stop::AuditStop;
use chan_io::Sink;
use session_audit::{Audit, audit};
use std::alloc::Global;

/// Writes the line of a journal of what two ends with this window did, if it is accepted; else tells
/// the first place at which it is refused, and writes nothing.
pub fn judge<K: Sink>(
    alloc: Global,
    window: u64,
    journal: &[u8],
    sink: &mut K,
) -> Result<(), AuditStop>
    requires low { 1 ≤ window }
    requires high { window ≤ max_window }
    ensures ok { OnOk result
        (TellsTotals window journal.now (K.output sink.old) (K.output sink.new)) }
    ensures fault { (fault : JournalFault) → result ≡ Err (AuditStop.Fault fault)
        → IsRefused window journal.now fault }
    ensures write { result ≡ Err AuditStop.Write → Rises (K.faults sink.old) (K.faults sink.new)
        × TellsPart window journal.now (K.output sink.old) (K.output sink.new) }
    ensures unwritten { (stop : AuditStop) → result ≡ Err stop → stop ≢ AuditStop.Write
        → sink.new ≡ sink.old }
    ensures steady { result ≢ Err AuditStop.Write → K.faults sink.new ≡ K.faults sink.old }
    ensures counted { K.faults sink.old ≤ K.faults sink.new }
{
    match audit(alloc, journal, window) {
        Audit::Yes(totals) => {
            let line = verdict_line(alloc, totals)?;
            sink.write(line.as_bytes())?;
            Ok(())
        }
        Audit::Bad(at, why) => Err(AuditStop::Fault(JournalFault { at, why })),
        Audit::NoMemory => Err(AuditStop::NoMemory),
    }
}
