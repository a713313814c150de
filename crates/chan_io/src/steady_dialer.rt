//! A dialer in memory that never fails.

ghost use Rattle.std.specs.Prelude.{◌≡◌, [], Some};

use crate::dial::Dial;
use crate::dial_log::DialLog;
use crate::dialer::Dialer;
use crate::failed::IoFault;
use chan_values::{Bytes, Text};
use std::alloc::Global;
use std::marker::Model;

/// A dialer that gives one reply to every dial. Its count of faults is 0 for good.
#[derive(Debug, Drop)]
pub struct SteadyDialer {
    reply: Bytes,
    log: DialLog,
}

impl Model for SteadyDialer {
    ghost use Rattle.std.specs.Prelude.{List};
    ghost use Rattle.chan_io.specs.declared.dial.Dial.{Dial};

    ghost Value = { List Dial };

    ghost view = { λ d. d.log };
}

impl SteadyDialer {
    /// A dialer that made no dial yet.
    pub fn new(alloc: Global, reply: Bytes) -> SteadyDialer
        ensures { result ≡ [] }
    {
        SteadyDialer {
            reply,
            log: DialLog::new(alloc),
        }
    }

    /// The dials that were made.
    pub fn dials(&self) -> &[Dial]
        ensures { result.now ≡ self.now }
    {
        self.log.as_slice()
    }
}

impl Dialer for SteadyDialer {
    ghost dials = { λ d. Some d };

    ghost faults = { λ _. 0 };

    fn dial(&mut self, _address: &Text, opening: &[u8]) -> Result<Bytes, IoFault> {
        Ok(self.log.answer(opening, &self.reply)?)
    }
}
