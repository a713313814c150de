//! A journal on its way to the sink.

ghost use Rattle.std.specs.Prelude.{◌≡◌, ◌++◌, ◌∷◌, [], OnOk};
ghost use Rattle.lab_run.specs.Printing.{Prints, printout};
ghost use Rattle.session_audit.specs.Journal.{framed, letter};

use chan_io::Sink;
use chan_values::{NoMemory, Side};
use lab_run::Stop;
use std::alloc::Global;
use std::marker::Model;

/// How many bytes are gathered before they are written.
const PIECE: usize = 16_384;

/// The letter of the plugin's end.
const PLUGIN: u8 = b'P';

/// The letter of the agent's end.
const AGENT: u8 = b'A';

/// The part of a journal that is not written yet.
#[derive(Drop)]
pub struct Writer {
    bytes: Vec<u8>,
}

impl Model for Writer {
    ghost use Rattle.std.specs.Prelude.{List, ℕ};

    ghost Value = { List ℕ };

    ghost view = { λ w. w.bytes.items };
}

impl Writer {
    /// Nothing is to be written yet.
    pub fn new(alloc: Global) -> Writer
        ensures { result ≡ [] }
    {
        Writer {
            bytes: Vec::new(alloc),
        }
    }

    /// Adds a record of one end, with its kind and what stands behind it, and writes what there is when
    /// it is much.
    pub fn add<K: Sink>(
        &mut self,
        sink: &mut K,
        side: Side,
        kind: u8,
        message: &[u8],
    ) -> Result<(), Stop>
        ensures { let at = printout K.output K.faults in
            Prints (framed (letter side ∷ kind ∷ message.now)) result
            (at self.old sink.old) (at self.new sink.new) }
    {
        self.gather(side, kind, message)?;
        if self.bytes.len() < PIECE {
            return Ok(());
        }
        self.flush(sink)
    }

    /// Writes what is left.
    pub fn flush<K: Sink>(&mut self, sink: &mut K) -> Result<(), Stop>
        ensures emptied { OnOk result (self.new ≡ []) }
        ensures written { let at = printout K.output K.faults in
            Prints [] result (at self.old sink.old) (at self.new sink.new) }
    {
        sink.write(&self.bytes)?;
        self.bytes.clear();
        Ok(())
    }

    /// Puts a record at the end. On want of memory a part of it is put.
    fn gather(&mut self, side: Side, kind: u8, message: &[u8]) -> Result<(), NoMemory>
        ensures { OnOk result
            (self.new ≡ self.old ++ framed (letter side ∷ kind ∷ message.now)) }
    {
        // The end and the kind stand before the message.
        let size = (message.len() as u64 + 2).to_be_bytes();
        self.bytes.extend_from_slice(&size[4..])?;
        self.bytes.push(letter_of(side))?;
        self.bytes.push(kind)?;
        self.bytes.extend_from_slice(message)?;
        Ok(())
    }
}

/// The byte that names an end.
fn letter_of(side: Side) -> u8
    ensures { result ≡ letter side }
{
    match side {
        Side::Plugin => PLUGIN,
        Side::Agent => AGENT,
    }
}
