//! A list of messages.

ghost use Rattle.std.specs.Prelude.{◌≡◌, IfOk};

use chan_io::{Got, NoMemory};
use std::alloc::Global;
use std::marker::Model;

/// A list of messages, as contracts see it.
#[derive(Debug, Drop)]
pub(crate) struct Messages {
    messages: Vec<Got>,
}

impl Model for Messages {
    ghost use Rattle.std.specs.Prelude.{List};
    ghost use Rattle.chan_io.specs.declared.got.Got.{Got};

    ghost Value = { List Got };

    ghost view = { λ m. m.messages.items };
}

impl Messages {
    /// The same messages as these.
    pub(crate) fn copy_of(alloc: Global, messages: &[Got]) -> Result<Messages, NoMemory>
        ensures { IfOk result (λ copied. copied ≡ messages.now) }
    {
        let mut copied = Vec::new(alloc);
        for message in messages {
            copied.push(message.copy(alloc)?)?;
        }
        Ok(Messages { messages: copied })
    }
}
