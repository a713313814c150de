//! Which calls of a fake fail.

ghost use Rattle.std.specs.Prelude.{◌≡◌, ◌≤◌};
ghost use Rattle.chan_io.specs.Faults.{Merges, Rises};

use std::marker::Model;

/// The calls of a fake that are to fail, by their numbers from 0, and how many were made. Contracts
/// see it as the number of those that failed.
#[derive(Debug, Drop)]
pub(crate) struct Failing {
    list: Vec<u64>,
    calls: u64,
    faults: u64,
}

impl Model for Failing {
    ghost use Rattle.std.specs.Prelude.{ℕ};

    ghost Value = { ℕ };

    ghost view = { λ f. f.faults };
}

impl Failing {
    /// No call was made yet.
    pub(crate) fn new(list: Vec<u64>) -> Failing
        ensures { result ≡ 0 }
    {
        Failing {
            list,
            calls: 0,
            faults: 0,
        }
    }

    /// Whether the call that is made now is to fail.
    pub(crate) fn fails(&mut self) -> bool
        ensures { self.new ≡ self.old }
    {
        let call = self.calls;
        self.calls = call.saturating_add(1);
        self.list.contains(&call)
    }

    /// Counts a call that failed.
    pub(crate) fn count(&mut self)
        ensures rises { Rises self.old self.new }
        ensures counted { self.old ≤ self.new }
    {
        self.faults = self.faults.saturating_add(1);
    }

    /// Counts the calls that failed of another.
    pub(crate) fn merge(&mut self, other: Failing)
        ensures merges { Merges self.old other self.new }
        ensures counted { self.old ≤ self.new }
    {
        self.faults = self.faults.saturating_add(other.faults);
    }

    /// How many calls failed.
    pub(crate) fn faults(&self) -> u64
        ensures { result ≡ self.now }
    {
        self.faults
    }
}
