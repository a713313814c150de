//! Flag 2, TerminateSession: the user has no more input.

ghost use Rattle.std.specs.Prelude.{◌≡◌, IfOk};
ghost use Rattle.shell_session.specs.Items.{is_terminate, terminate};

use crate::code::FLAG;
use chan_values::{Bytes, Item, NoMemory};
use std::alloc::Global;

/// The payload of the flag: four bytes, big-endian.
const TERMINATE: [u8; 4] = [0, 0, 0, 2];

/// The item of the flag.
pub(crate) fn terminate_item(alloc: Global) -> Result<Item, NoMemory>
    ensures { IfOk result (λ item. item ≡ terminate) }
{
    Ok(Item {
        ptype: FLAG,
        payload: Bytes::new(Vec::from_array(alloc, TERMINATE)?),
    })
}

/// Whether an item is the flag. A flag of another number or length is none.
pub(crate) fn is_terminate(item: &Item) -> bool
    ensures { result ≡ is_terminate item.now }
{
    item.ptype == FLAG && item.payload.as_slice() == TERMINATE.as_slice()
}
