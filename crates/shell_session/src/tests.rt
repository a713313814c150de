//! Sessions over fakes, call by call.

mod agents;
mod feeders;
mod plugins;

use chan_values::{Bytes, Item, Items};
use handshake::Step;
use std::alloc::{AllocError, Global};

/// Another answer came than the one that is asked for.
#[derive(Debug, Drop)]
struct OtherAnswer;

/// An item of this type.
fn item(alloc: Global, ptype: u32, payload: &[u8]) -> Result<Item, AllocError> {
    Ok(Item {
        ptype,
        payload: Bytes::new(Vec::from_slice(alloc, payload)?),
    })
}

/// Whether these are one item, of this type and with these bytes.
fn is_one(items: &Items, ptype: u32, payload: &[u8]) -> bool {
    match items.as_slice() {
        [item] => item.ptype == ptype && item.payload.as_slice() == payload,
        _ => false,
    }
}

/// The first item of these.
fn first(items: Items) -> Result<Item, OtherAnswer> {
    items.into_vec().into_iter().next().ok_or(OtherAnswer)
}

/// What a client answers to a request.
fn answered(step: Step) -> Result<Item, OtherAnswer> {
    match step {
        Step::Put(item) => Ok(item),
        _ => Err(OtherAnswer),
    }
}
