//! The whole input of the lab, read before anything is written.

ghost use Rattle.std.specs.Prelude.{◌≡◌, ◌≢◌, ◌+◌, ◌≤◌, IfOk, Err, length};
ghost use Rattle.chan_io.specs.Faults.{Rises};
ghost use Rattle.lab_cmd.specs.Inputs.{ReadToEnd, IsLonger, GivesAtMost, max_input};

use chan_io::{Failed, Source};
use std::alloc::{AllocError, Global};

/// The longest input in bytes.
pub const MAX_INPUT: usize = 67_108_864;

/// How many bytes are asked of the source at once.
const PIECE: usize = 16_384;

/// Why there is no input.
#[derive(Clone, Copy, Debug, PartialEq, Eq)]
pub enum InputFault {
    /// A read failed.
    Read,
    /// The input is longer than 67,108,864 bytes.
    TooLong,
    /// There was no memory for it.
    NoMemory,
}

impl From<Failed> for InputFault {
    ghost use Rattle.std.specs.Prelude.{◌≡◌};
    ghost use Rattle.lab_cmd.specs.declared.input.InputFault.TheVariants.{Read};

    ghost from_gives = { λ _ fault. fault ≡ Read };

    fn from(_: Failed) -> InputFault {
        InputFault::Read
    }
}

impl From<AllocError> for InputFault {
    ghost use Rattle.std.specs.Prelude.{◌≡◌};
    ghost use Rattle.lab_cmd.specs.declared.input.InputFault.TheVariants.{NoMemory};

    ghost from_gives = { λ _ fault. fault ≡ NoMemory };

    fn from(_: AllocError) -> InputFault {
        InputFault::NoMemory
    }
}

/// Reads the source to its end, and one byte past the longest input at most.
pub fn read_input<S: Source>(alloc: Global, source: &mut S) -> Result<Vec<u8>, InputFault>
    ensures whole { IfOk result (λ input.
        ReadToEnd input.items (S.input source.old) (S.input source.new)) }
    ensures short { IfOk result (λ input. length input.items ≤ max_input) }
    ensures long { result ≡ Err InputFault.TooLong → IsLonger max_input (S.input source.old) }
    ensures failed { result ≡ Err InputFault.Read
        → Rises (S.faults source.old) (S.faults source.new) }
    ensures bounded { GivesAtMost (max_input + 1) (S.input source.old) (S.input source.new) }
    ensures steady { result ≢ Err InputFault.Read → S.faults source.new ≡ S.faults source.old }
    ensures counted { S.faults source.old ≤ S.faults source.new }
{
    let mut input = Vec::new(alloc);
    let mut piece = [0u8; PIECE];
    'reading: while input.len() <= MAX_INPUT {
        let room = (MAX_INPUT + 1 - input.len()).min(PIECE);
        let count = source.read(&mut piece[..room])?;
        if count == 0 {
            return Ok(input);
        }
        input.extend_from_slice(&piece[..count])?;
    }
    Err(InputFault::TooLong)
}
