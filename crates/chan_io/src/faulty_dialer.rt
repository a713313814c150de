//! A dialer in memory, of which chosen calls fail.

ghost use Rattle.std.specs.Prelude.{◌≡◌, [], Some};

use crate::dial::Dial;
use crate::dial_log::DialLog;
use crate::dialer::Dialer;
use crate::failed::IoFault;
use crate::failing::Failing;
use chan_values::{Bytes, Text};
use std::alloc::Global;
use std::marker::Model;

/// A dialer that gives the replies of a list, one after another, and fails after the last. The calls
/// whose numbers are in the second list fail too; the first call is 0.
#[derive(Debug, Drop)]
pub struct FaultyDialer {
    replies: Vec<Bytes>,
    at: usize,
    log: DialLog,
    failing: Failing,
}

impl Model for FaultyDialer {
    ghost use Rattle.chan_io.specs.Dials.{MemoryDialer};

    ghost Value = { MemoryDialer };

    ghost view = { λ d. record { dials = d.log; faults = d.failing } };
}

impl FaultyDialer {
    /// A dialer that made no dial yet.
    pub fn new(alloc: Global, replies: Vec<Bytes>, failing: Vec<u64>) -> FaultyDialer
        ensures { result ≡ record { dials = []; faults = 0 } }
    {
        FaultyDialer {
            replies,
            at: 0,
            log: DialLog::new(alloc),
            failing: Failing::new(failing),
        }
    }

    /// The dials that were made.
    pub fn dials(&self) -> &[Dial]
        ensures { result.now ≡ self.now.dials }
    {
        self.log.as_slice()
    }
}

impl Dialer for FaultyDialer {
    ghost dials = { λ d. Some d.dials };

    ghost faults = { λ d. d.faults };

    fn dial(&mut self, _address: &Text, opening: &[u8]) -> Result<Bytes, IoFault> {
        match self.replies.get(self.at) {
            Some(reply) if !self.failing.fails() => {
                let reply = self.log.answer(opening, reply)?;
                self.at += 1;
                Ok(reply)
            }
            _ => {
                self.log.fail(opening)?;
                self.failing.count();
                Err(IoFault::Failed)
            }
        }
    }
}
