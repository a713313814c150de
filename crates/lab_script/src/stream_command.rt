//! A line of a script whose ends carry streams.

ghost use Rattle.std.specs.Prelude.{◌≡◌};
ghost use Rattle.lab_script.specs.StreamCommand.{stream_verb_of};

use crate::command::Command;
use crate::verb::Verb;
use chan_values::{Bytes, Side};

/// What a line of a script asks for where the ends carry streams.
#[derive(Debug, Drop)]
pub enum StreamCommand {
    /// What a line of any script may ask for. It puts in no item of payload type 1.
    Plain(Command),
    /// The plugin's end opens a stream.
    Open,
    /// The streams of one end do something.
    On(Side, StreamAction),
}

/// What a line asks of the streams of one end.
#[derive(Debug, Drop)]
pub enum StreamAction {
    /// Bytes are written to a stream: 1 to 32,768 of them.
    Write { sid: u32, bytes: Bytes },
    /// A stream is closed.
    Close { sid: u32 },
    /// What the streams give out is put in as an item: `most` bytes at most, 1 to 1,024.
    Push { most: usize },
    /// What came for a stream is taken: `most` bytes at most, 1 to 65,536.
    Take { sid: u32, most: usize },
}

impl StreamAction {
    /// The verb of the action.
    pub fn verb(&self) -> Verb
        ensures { result ≡ stream_verb_of self.now }
    {
        match self {
            StreamAction::Write { .. } => Verb::StreamWrite,
            StreamAction::Close { .. } => Verb::StreamClose,
            StreamAction::Push { .. } => Verb::StreamPush,
            StreamAction::Take { .. } => Verb::StreamTake,
        }
    }
}
