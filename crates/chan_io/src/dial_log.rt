//! The dials of a dialer in memory.

ghost use Rattle.std.specs.Prelude.{◌≡◌, ◌++◌, ◌∷◌, [], None, Some, IfOk, OnOk, OnErr};
ghost use Rattle.chan_io.specs.Dials.{dial_with};

use crate::dial::Dial;
use chan_values::{Bytes, NoMemory};
use std::alloc::Global;
use std::marker::Model;

/// The dials that were made, in order.
#[derive(Debug, Drop)]
pub(crate) struct DialLog {
    alloc: Global,
    dials: Vec<Dial>,
}

impl Model for DialLog {
    ghost use Rattle.std.specs.Prelude.{List};
    ghost use Rattle.chan_io.specs.declared.dial.Dial.{Dial};

    ghost Value = { List Dial };

    ghost view = { λ l. l.dials.items };
}

impl DialLog {
    /// No dial was made yet.
    pub(crate) fn new(alloc: Global) -> DialLog
        ensures { result ≡ [] }
    {
        DialLog {
            alloc,
            dials: Vec::new(alloc),
        }
    }

    /// The dials in place.
    pub(crate) fn as_slice(&self) -> &[Dial]
        ensures { result.now ≡ self.now }
    {
        self.dials.as_slice()
    }

    /// Notes a dial that is answered by this reply, and gives the reply.
    pub(crate) fn answer(&mut self, opening: &[u8], reply: &Bytes) -> Result<Bytes, NoMemory>
        ensures answer { IfOk result (λ r. r ≡ reply.now) }
        ensures noted { OnOk result (self.new
            ≡ self.old ++ dial_with opening.now (Some reply.now) ∷ []) }
        ensures same { OnErr result (self.new ≡ self.old) }
    {
        let opening = Bytes::new(Vec::from_slice(self.alloc, opening)?);
        let told = reply.copy(self.alloc)?;
        let given = reply.copy(self.alloc)?;
        self.dials.push(Dial {
            opening,
            reply: Some(told),
        })?;
        Ok(given)
    }

    /// Notes a dial that fails.
    pub(crate) fn fail(&mut self, opening: &[u8]) -> Result<(), NoMemory>
        ensures noted { OnOk result (self.new ≡ self.old ++ dial_with opening.now None ∷ []) }
        ensures same { OnErr result (self.new ≡ self.old) }
    {
        let opening = Bytes::new(Vec::from_slice(self.alloc, opening)?);
        self.dials.push(Dial {
            opening,
            reply: None,
        })?;
        Ok(())
    }
}
