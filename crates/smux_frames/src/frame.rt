//! A frame of smux version 1.

ghost use Rattle.std.specs.Prelude.{◌≡◌};

use chan_values::Bytes;
use std::marker::Model;

/// How many bytes stand before the data.
pub const HEADER_LEN: usize = 8;

/// The most data of a frame that is written, in bytes. A frame that is read may have up to 65,535.
pub const MAX_WRITTEN_DATA: usize = 32_768;

/// The command of a frame.
#[derive(Clone, Copy, Debug, PartialEq, Eq)]
pub enum Cmd {
    /// SYN, 0: begins a stream.
    Syn,
    /// FIN, 1: the sender writes no more to the stream.
    Fin,
    /// PSH, 2: data of the stream.
    Psh,
    /// NOP, 3: nothing, sent to keep the link alive.
    Nop,
}

/// One frame.
#[derive(Debug, Drop)]
pub struct Frame {
    /// What it does.
    pub cmd: Cmd,
    /// The stream's id.
    pub sid: u32,
    /// The data: none unless the command is PSH.
    pub payload: Bytes,
}

/// A list of frames, as contracts see it.
#[derive(Debug, Drop)]
pub struct Frames {
    frames: Vec<Frame>,
}

impl Model for Frames {
    ghost use Rattle.std.specs.Prelude.{List};
    ghost use Rattle.smux_frames.specs.declared.frame.Frame.{Frame};

    ghost Value = { List Frame };

    ghost view = { λ f. f.frames.items };
}

impl Frames {
    /// The frames of a vector.
    pub fn new(frames: Vec<Frame>) -> Frames
        ensures { result ≡ frames.items }
    {
        Frames { frames }
    }

    /// The vector of the frames.
    pub fn into_vec(self) -> Vec<Frame>
        ensures { result.items ≡ self }
    {
        self.frames
    }

    /// The frames in place.
    pub fn as_slice(&self) -> &[Frame]
        ensures { result.now ≡ self.now }
    {
        self.frames.as_slice()
    }
}
