//! A run of a script in plain mode that writes a journal.

ghost use Rattle.std.specs.Prelude.{◌≤◌, [], All};
ghost use Rattle.chan_values.specs.Limits.{max_window};
ghost use Rattle.lab_script.specs.Command.{IsCommand};
ghost use Rattle.lab_run.specs.Printing.{Prints, printout};
ghost use Rattle.lab_journal.specs.Records.{journal_of};

use crate::record::OPENED;
use crate::recorder::Recorder;
use crate::writer::Writer;
use chan_io::Sink;
use chan_values::Side;
use lab_run::{Context, Pair, Stop};
use lab_script::Command;
use std::alloc::Global;

/// Runs a script on two new ends with this window, and writes the journal of what both did. Nothing is
/// left to be written.
pub fn run_journal<K: Sink>(
    alloc: Global,
    window: u64,
    commands: Vec<Command>,
    sink: &mut K,
) -> Result<(), Stop>
    requires low { 1 ≤ window }
    requires high { window ≤ max_window }
    requires in_range { All IsCommand commands.items }
    ensures { let at = printout K.output K.faults [] in
        Prints (journal_of window commands.items) result (at sink.old) (at sink.new) }
{
    let mut recorder = Recorder {
        pair: Pair::new(alloc, window)?,
        writer: Writer::new(alloc),
    };
    recorder.writer.add(sink, Side::Plugin, OPENED, &[])?;
    recorder.writer.add(sink, Side::Agent, OPENED, &[])?;
    let mut moment = 0;
    let mut line = 0;
    for command in commands {
        line += 1;
        let context = Context {
            alloc,
            window,
            moment,
            line,
        };
        moment = recorder.follow(&context, command, sink)?;
    }
    recorder.writer.flush(sink)
}
