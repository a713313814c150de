//! One frame, byte by byte.

ghost use Rattle.std.specs.Prelude.{◌≡◌, IfOk, ◌∷◌, ◌++◌, []};
ghost use Rattle.std.specs.Option.{option_map};
ghost use Rattle.smux_frames.specs.Coming.{coming_of, missing_data};
ghost use Rattle.smux_frames.specs.Reading.{cmd_of, fault_of, read_frame};

use crate::coming::Coming;
use crate::fault::FrameFault;
use crate::frame::{Cmd, Frame};
use chan_values::{Bytes, NoMemory};
use std::alloc::Global;

/// The command of a byte.
pub(crate) fn cmd(byte: u8) -> Cmd
    ensures { result ≡ cmd_of byte }
{
    match byte {
        0 => Cmd::Syn,
        1 => Cmd::Fin,
        2 => Cmd::Psh,
        _ => Cmd::Nop,
    }
}

/// The fault that a byte shows after those before it.
pub(crate) fn fault(start: u64, rest: &[u8], byte: u8) -> Option<FrameFault>
    ensures { result ≡ fault_of start rest.now byte }
{
    match rest {
        [] => {
            if byte == 1 {
                None
            } else {
                Some(FrameFault::Version(start, byte))
            }
        }
        [_] => {
            if byte < 4 {
                None
            } else {
                Some(FrameFault::Command(start, byte))
            }
        }
        [_, _] => None,
        [_, command, low] => {
            let length = u16::from_le_bytes([*low, byte]);
            if *command == 2 || length == 0 {
                None
            } else {
                Some(FrameFault::ControlLength(start, length))
            }
        }
        _ => None,
    }
}

/// The frame, if the bytes are a whole one.
pub(crate) fn frame(alloc: Global, bytes: &[u8]) -> Result<Option<Frame>, NoMemory>
    ensures { IfOk result (λ o. o ≡ read_frame bytes.now) }
{
    match bytes {
        [_, command, low, high, a, b, c, d, rest @ ..] => {
            let length = u16::from_le_bytes([*low, *high]);
            if rest.len() == length as usize {
                let payload = Vec::from_slice(alloc, rest)?;
                Ok(Some(Frame {
                    cmd: cmd(*command),
                    sid: u32::from_le_bytes([*a, *b, *c, *d]),
                    payload: Bytes::new(payload),
                }))
            } else {
                Ok(None)
            }
        }
        _ => Ok(None),
    }
}

/// What is told of the frame that is whole with one more byte.
pub(crate) fn coming(bytes: &[u8], byte: u8) -> Option<Coming>
    ensures { result ≡ option_map coming_of (read_frame (bytes.now ++ byte ∷ [])) }
{
    match bytes {
        [_, command, low, high, a, b, c] => {
            let length = u16::from_le_bytes([*low, *high]);
            if length == 0 {
                Some(Coming {
                    cmd: cmd(*command),
                    sid: u32::from_le_bytes([*a, *b, *c, byte]),
                    length: 0,
                })
            } else {
                None
            }
        }
        [_, command, low, high, a, b, c, d, rest @ ..] => {
            let length = u16::from_le_bytes([*low, *high]);
            if length > 0 && rest.len() == (length - 1) as usize {
                Some(Coming {
                    cmd: cmd(*command),
                    sid: u32::from_le_bytes([*a, *b, *c, *d]),
                    length,
                })
            } else {
                None
            }
        }
        _ => None,
    }
}

/// How many bytes of data are to come, once the header is there.
pub(crate) fn missing(bytes: &[u8]) -> usize
    ensures { result ≡ missing_data bytes.now }
{
    match bytes {
        [_, _, low, high, _, _, _, _, data @ ..] => {
            let length = u16::from_le_bytes([*low, *high]) as usize;
            length.saturating_sub(data.len())
        }
        _ => 0,
    }
}
