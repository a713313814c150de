//! The status of a program as an item: decimal digits, with a minus where it is negative.

ghost use Rattle.std.specs.Prelude.{◌≡◌, ◌≤◌, IfNone, IfOk, IfSome, length};
ghost use Rattle.shell_session.specs.Items.{IsExit, IsNoExit, exit_item};

use crate::code::EXIT_CODE;
use chan_values::{Bytes, Item, NoMemory};
use itoa::Buffer;
use std::alloc::Global;

/// The item of a status.
pub(crate) fn exit_item(alloc: Global, status: i32) -> Result<Item, NoMemory>
    ensures item { IfOk result (λ item. item ≡ exit_item status) }
    ensures small { IfOk result (λ item. length item.payload ≤ 40) }
{
    let mut buffer = Buffer::new();
    let digits = Vec::from_slice(alloc, buffer.format(status).as_bytes())?;
    Ok(Item {
        ptype: EXIT_CODE,
        payload: Bytes::new(digits),
    })
}

/// The status of an item, if it is that of one.
pub(crate) fn exit_of(item: &Item) -> Option<i32>
    ensures found { IfSome result (λ status. IsExit status item.now) }
    ensures none { IfNone result (IsNoExit item.now) }
{
    if item.ptype != EXIT_CODE {
        return None;
    }
    let Ok(text) = str::from_utf8(item.payload.as_slice()) else {
        return None;
    };
    let Ok(status) = text.parse::<i32>() else {
        return None;
    };
    // `parse` also takes a plus sign and leading zeros.
    if Buffer::new().format(status) == text {
        Some(status)
    } else {
        None
    }
}
