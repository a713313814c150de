//! Which calls of a fake fail.

ghost use Rattle.std.specs.Prelude.{◌≡◌, ◌≤◌, OnOk, OnErr};
ghost use Rattle.chan_io.specs.Faults.{Rises};

use chan_io::Failed;
use std::marker::Model;

/// The calls of a fake that are to fail, by their numbers from 0. Contracts see it as the number of
/// those that failed.
#[derive(Debug, Drop)]
pub(crate) struct Failing {
    list: Vec<u64>,
    calls: u64,
    faults: u64,
}

impl Model for Failing {
    ghost use Rattle.std.specs.Prelude.{ℕ};

    ghost Value = { ℕ };

    ghost view = { λ f. f.faults };
}

impl Failing {
    /// No call was made yet.
    pub(crate) fn new(list: Vec<u64>) -> Failing
        ensures { result ≡ 0 }
    {
        Failing {
            list,
            calls: 0,
            faults: 0,
        }
    }

    /// Begins the next call, or counts it where it is to fail.
    pub(crate) fn call(&mut self) -> Result<(), Failed>
        ensures same { OnOk result (self.new ≡ self.old) }
        ensures rises { OnErr result (Rises self.old self.new) }
        ensures counted { self.old ≤ self.new }
    {
        let call = self.calls;
        self.calls = call.saturating_add(1);
        if self.list.contains(&call) {
            return Err(self.fail());
        }
        Ok(())
    }

    /// Counts a call that failed.
    pub(crate) fn fail(&mut self) -> Failed
        ensures rises { Rises self.old self.new }
        ensures counted { self.old ≤ self.new }
    {
        self.faults = self.faults.saturating_add(1);
        Failed
    }
}
