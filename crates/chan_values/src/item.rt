//! What a user of the channel puts in and gets out: a payload with its type.

ghost use Rattle.std.specs.Prelude.{◌≡◌, IfOk, []};

use crate::bytes::Bytes;
use crate::no_memory::NoMemory;
use std::alloc::Global;
use std::marker::Model;

/// A payload and its type.
#[derive(Debug, Drop)]
pub struct Item {
    /// PayloadType, as 1 (Output), 10 (Flag) or 12 (ExitCode).
    pub ptype: u32,
    /// Payload: at most 65,536 bytes in a message.
    pub payload: Bytes,
}

impl Item {
    /// The same item a second time.
    pub fn copy(&self, alloc: Global) -> Result<Item, NoMemory>
        ensures { IfOk result (λ copied. copied ≡ self.now) }
    {
        Ok(Item {
            ptype: self.ptype,
            payload: self.payload.copy(alloc)?,
        })
    }
}

/// A list of items, as contracts see it. It is made from a vector and gives it back.
#[derive(Debug, Drop)]
pub struct Items {
    items: Vec<Item>,
}

impl Model for Items {
    ghost use Rattle.std.specs.Prelude.{List};
    ghost use Rattle.chan_values.specs.declared.item.Item.{Item};

    ghost Value = { List Item };

    ghost view = { λ i. i.items.items };
}

impl Items {
    /// The items of a vector.
    pub fn new(items: Vec<Item>) -> Items
        ensures { result ≡ items.items }
    {
        Items { items }
    }

    /// No items.
    pub fn none(alloc: Global) -> Items
        ensures { result ≡ [] }
    {
        Items {
            items: Vec::new(alloc),
        }
    }

    /// The vector of the items.
    pub fn into_vec(self) -> Vec<Item>
        ensures { result.items ≡ self }
    {
        self.items
    }

    /// The items in place.
    pub fn as_slice(&self) -> &[Item]
        ensures { result.now ≡ self.now }
    {
        self.items.as_slice()
    }
}
