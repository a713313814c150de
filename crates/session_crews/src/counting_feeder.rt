//! A feeder in memory.

ghost use Rattle.std.specs.Prelude.{◌≡◌, IfOk};
ghost use Rattle.session_crews.specs.Counting.{counted_piece};
ghost use Rattle.session_crews.specs.Fresh.{IsFresh};

use chan_values::{Bytes, Item, NoMemory};
use session_feeds::{Came, Fed, Feeder};
use std::alloc::Global;

/// A feeder that is quiet so many times, then gives another one that is like it, then its pieces,
/// each of type 1 with the 8 bytes of its place from 0. At last it has given all, or fails.
#[derive(Debug, Drop)]
pub struct CountingFeeder {
    /// The memory for its pieces.
    pub alloc: Global,
    /// Its mark. The feeder that it gives has the mark after it.
    pub mark: u64,
    /// How many times it is still quiet.
    pub quiet: u64,
    /// How many feeders are still to come below it, each given by the one above.
    pub below: u64,
    /// How many pieces it gives.
    pub pieces: u64,
    /// Whether it fails at last.
    pub fails: bool,
    /// The mark of the feeder that it gave.
    pub child: Option<u64>,
    /// How many pieces it gave.
    pub given: u64,
    /// How it came to its end.
    pub came: Option<Came>,
    /// How many of its calls failed.
    pub faults: u64,
}

impl CountingFeeder {
    /// A feeder that gives so many pieces, is never quiet, and has none below it.
    pub fn new(alloc: Global, mark: u64, pieces: u64) -> CountingFeeder
        ensures mark { result.mark ≡ mark }
        ensures pieces { result.pieces ≡ pieces }
        ensures fresh { IsFresh result }
    {
        CountingFeeder {
            alloc,
            mark,
            quiet: 0,
            below: 0,
            pieces,
            fails: false,
            child: None,
            given: 0,
            came: None,
            faults: 0,
        }
    }

    /// The feeder below it.
    fn another(&self) -> CountingFeeder
        ensures { IsFresh result }
    {
        let mut other = CountingFeeder::new(self.alloc, self.mark.wrapping_add(1), self.pieces);
        other.below = self.below.saturating_sub(1);
        other.fails = self.fails;
        other
    }
}

/// The piece at this place.
fn piece(alloc: Global, place: u64) -> Result<Item, NoMemory>
    ensures { IfOk result (λ item. item ≡ counted_piece place) }
{
    let bytes = Vec::from_array(alloc, place.to_be_bytes())?;
    Ok(Item {
        ptype: 1,
        payload: Bytes::new(bytes),
    })
}

impl Feeder for CountingFeeder {
    ghost use Rattle.session_crews.specs.Counting.{counted_pieces, marks_in};

    ghost told = { λ f. record {
      mark = f.mark;
      children = marks_in f.child;
      pieces = counted_pieces f.given;
      came = f.came;
      faults = f.faults;
    } };

    fn next(&mut self) -> Fed<CountingFeeder> {
        if self.quiet > 0 {
            self.quiet -= 1;
            return Fed::Quiet;
        }
        if self.below > 0 && self.child.is_none() {
            let other = self.another();
            self.child = Some(other.mark);
            return Fed::Another(other);
        }
        if self.given < self.pieces {
            let Ok(item) = piece(self.alloc, self.given) else {
                return Fed::NoMemory;
            };
            self.given += 1;
            return Fed::Piece(item);
        }
        if self.fails {
            self.faults = self.faults.saturating_add(1);
            self.came = Some(Came::Failed);
            return Fed::Failed;
        }
        self.came = Some(Came::Over);
        Fed::Over
    }
}
