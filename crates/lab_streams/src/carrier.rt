//! One side of the link of streams.

ghost use Rattle.std.specs.Prelude.{◌≡◌, ◌++◌, [], true, false, length, nat_lt, IfOk, OnOk};
ghost use Rattle.lab_streams.specs.Ends.{FeedsKept, IsCarrier};
ghost use Rattle.lab_streams.specs.Steps.{bytes_in, bytes_of};

use crate::left::Left;
use chan_values::{Item, NoMemory};
use smux_streams::{Events, Mux};
use std::alloc::Global;

/// The payload type of the items that carry the bytes of the streams.
pub const STREAM_TYPE: u32 = 1;

/// A Mux, and the bytes of the other side that came and that it has not taken.
#[derive(Drop)]
pub struct Carrier {
    pub mux: Mux,
    pub left: Left,
}

impl Carrier {
    /// The side that opens streams.
    pub fn client(alloc: Global) -> Carrier
        ensures { IsCarrier true [] [] result }
    {
        Carrier {
            mux: Mux::client(alloc),
            left: Left::new(alloc),
        }
    }

    /// The side for which streams are opened.
    pub fn server(alloc: Global) -> Carrier
        ensures { IsCarrier false [] [] result }
    {
        Carrier {
            mux: Mux::server(alloc),
            left: Left::new(alloc),
        }
    }

    /// Keeps the bytes of the streams that these items carry. Answers whether there are any.
    pub fn keep(&mut self, items: &[Item]) -> Result<bool, NoMemory>
        ensures came { IfOk result (λ came. came ≡ nat_lt 0 (length (bytes_of items.now))) }
        ensures kept { OnOk result
            (self.new ≡ record self.old { left = self.old.left ++ bytes_of items.now }) }
    {
        let before = self.left.len();
        for item in items {
            self.left.append(bytes_in(item))?;
        }
        Ok(before < self.left.len())
    }

    /// Feeds what is kept to the Mux, and answers what its frames did. What it leaves stays kept.
    pub fn feed(&mut self) -> Result<Events, NoMemory>
        ensures { IfOk result (FeedsKept self.old self.new) }
    {
        let fed = self.mux.feed(self.left.as_slice())?;
        self.left.advance(fed.consumed);
        Ok(fed.events)
    }
}

/// The bytes of the streams that an item carries.
fn bytes_in(item: &Item) -> &[u8]
    ensures { result.now ≡ bytes_in item.now }
{
    if item.ptype == STREAM_TYPE {
        item.payload.as_slice()
    } else {
        &[]
    }
}
