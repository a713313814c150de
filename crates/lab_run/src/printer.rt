//! The report on its way to the sink.

ghost use Rattle.std.specs.Prelude.{◌≡◌, [], Option, OnOk};
ghost use Rattle.lab_script.specs.Report.{report_line};
ghost use Rattle.lab_run.specs.Printing.{Prints, printout};

use crate::stop::Stop;
use chan_io::Sink;
use chan_values::Side;
use lab_script::{Outcome, Verb, push_line};
use std::alloc::Global;
use std::marker::Model;

/// How many bytes are gathered before they are written.
const PIECE: usize = 16_384;

/// The part of the report that is not written yet.
#[derive(Drop)]
pub struct Printer {
    text: Vec<u8>,
}

impl Model for Printer {
    ghost use Rattle.std.specs.Prelude.{List, ℕ};

    ghost Value = { List ℕ };

    ghost view = { λ p. p.text.items };
}

impl Printer {
    /// Nothing is to be written yet.
    pub fn new(alloc: Global) -> Printer
        ensures { result ≡ [] }
    {
        Printer {
            text: Vec::new(alloc),
        }
    }

    /// Adds a line, and writes what there is when it is much.
    pub fn line<K: Sink>(
        &mut self,
        sink: &mut K,
        number: u64,
        verb: Verb,
        side: Option<Side>,
        outcome: &Outcome,
    ) -> Result<(), Stop>
        ensures { let at = printout K.output K.faults in
            Prints (report_line number verb side outcome.now) result
            (at self.old sink.old) (at self.new sink.new) }
    {
        push_line(&mut self.text, number, verb, side, outcome)?;
        if self.text.len() < PIECE {
            return Ok(());
        }
        self.flush(sink)
    }

    /// Writes what is left.
    pub fn flush<K: Sink>(&mut self, sink: &mut K) -> Result<(), Stop>
        ensures emptied { OnOk result (self.new ≡ []) }
        ensures printed { let at = printout K.output K.faults in
            Prints [] result (at self.old sink.old) (at self.new sink.new) }
    {
        sink.write(&self.text)?;
        self.text.clear();
        Ok(())
    }
}
