//! A frame as bytes.

ghost use Rattle.std.specs.Prelude.{◌≡◌, ◌≢◌, ◌≤◌, IfOk, length, []};
ghost use Rattle.smux_frames.specs.Spelling.{Spells, max_written_data};
ghost use Rattle.smux_frames.specs.declared.frame.Cmd.TheVariants as Cmd;

use crate::frame::{Cmd, Frame, HEADER_LEN};
use chan_values::NoMemory;
use std::alloc::Global;

/// The bytes of one frame, all numbers little-endian.
pub fn encode_frame(alloc: Global, frame: &Frame) -> Result<Vec<u8>, NoMemory>
    requires small { length frame.now.payload ≤ max_written_data }
    requires empty { frame.now.cmd ≢ Cmd.Psh → frame.now.payload ≡ [] }
    ensures { IfOk result (λ bytes. Spells frame.now bytes.items) }
{
    let payload = frame.payload.as_slice();
    let mut bytes = Vec::with_capacity(alloc, HEADER_LEN + payload.len())?;
    bytes.push(1)?;
    bytes.push(match frame.cmd {
        Cmd::Syn => 0,
        Cmd::Fin => 1,
        Cmd::Psh => 2,
        Cmd::Nop => 3,
    })?;
    bytes.extend_from_slice(&(payload.len() as u16).to_le_bytes())?;
    bytes.extend_from_slice(&frame.sid.to_le_bytes())?;
    bytes.extend_from_slice(payload)?;
    Ok(bytes)
}
