//! A feeder that reads a source.

ghost use Rattle.std.specs.Prelude.{◌≡◌, Some};
ghost use Rattle.shell_session.specs.Readings.{IsReading, new_reading};

use chan_io::Source;
use chan_values::{Bytes, Item};
use http_server::Log;
use session_feeds::{Came, Fed, Feeder};
use std::alloc::Global;
use std::marker::Model;
use std::snapshot::Snapshot;

/// The most bytes of one read.
const MAX_READ: usize = 1024;

/// Gives what each read of its source gives, as an item of one type.
#[derive(Drop)]
pub struct StreamFeeder<S: Source> {
    alloc: Global,
    source: S,
    ptype: u32,
    came: Option<Came>,
    // What contracts know of its past: the source as it was at first, and the pieces.
    first: Snapshot<S>,
    pieces: Log<Item, ()>,
}

impl<S: Source> Model for StreamFeeder<S> {
    ghost use Rattle.std.specs.Prelude.{map};
    ghost use Rattle.shell_session.specs.Readings.{IsReading, Reading};

    ghost Value = { Reading };

    ghost view = { λ f. record {
      ptype = f.ptype;
      first = S.input f.first.value;
      now = S.input f.source;
      pieces = map (λ p. p.0) f.pieces.items;
      came = f.came;
      faults = S.faults f.source;
    } };

    ghost invariant = { λ f. IsReading (record {
      ptype = f.ptype;
      first = S.input f.first.value;
      now = S.input f.source;
      pieces = map (λ p. p.0) f.pieces.items;
      came = f.came;
      faults = S.faults f.source;
    }) };
}

impl<S: Source> StreamFeeder<S> {
    /// A feeder of items of this type, which gave nothing yet.
    pub fn new(alloc: Global, source: S, ptype: u32) -> StreamFeeder<S>
        ensures { result ≡ new_reading ptype (S.input source) (S.faults source) }
    {
        let first = Snapshot::of(&source);
        StreamFeeder {
            alloc,
            source,
            ptype,
            came: None,
            first,
            pieces: Log::new(),
        }
    }

    /// What holds of each feeder: its source gave its pieces since it was made, and nothing else.
    pub fn reads(&self)
        ensures { IsReading self.now }
    {
        let _ = &self.source;
    }

    /// Its source.
    pub fn into_source(self) -> S
        ensures now { S.input result ≡ self.now }
        ensures faults { S.faults result ≡ self.faults }
        ensures reads { IsReading self }
    {
        self.source
    }
}

/// Keeps a feeder that came back.
pub(crate) fn keep<S: Source + Drop>(slot: &mut Option<StreamFeeder<S>>, feeder: StreamFeeder<S>)
    ensures kept { slot.new ≡ Some feeder }
    ensures reads { IsReading feeder }
{
    feeder.reads();
    *slot = Some(feeder);
}

impl<S: Source + Send + Drop> Feeder for StreamFeeder<S> {
    ghost use Rattle.shell_session.specs.Readings.{told_by};

    ghost told = { told_by };

    fn next(&mut self) -> Fed<StreamFeeder<S>> {
        let Ok(mut bytes) = vec![in self.alloc; 0u8; MAX_READ] else {
            return Fed::NoMemory;
        };
        match self.source.read(bytes.as_mut_slice()) {
            Ok(0) => {
                self.came = Some(Came::Over);
                Fed::Over
            }
            Ok(count) => {
                bytes.truncate(count);
                let item = Item {
                    ptype: self.ptype,
                    payload: Bytes::new(bytes),
                };
                self.pieces = self.pieces.and(&item, &());
                Fed::Piece(item)
            }
            Err(_) => {
                self.came = Some(Came::Failed);
                Fed::Failed
            }
        }
    }
}
