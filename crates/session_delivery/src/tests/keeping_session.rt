//! A session in memory.

ghost use Rattle.std.specs.Prelude.{◌≡◌, [], All, IfNone, IfSome, None, false, map, true};
ghost use Rattle.std.specs.Option.{ForSome};
ghost use Rattle.session_crews.specs.Counting.{marks_in};
ghost use Rattle.session_crews.specs.Fresh.{IsFresh};
ghost use Rattle.session_feeds.specs.Sessions.{AllSmall};

use chan_values::Items;
use session_crews::CountingFeeder;
use session_feeds::{Session, SessionFault, Verdict};
use session_run::Parcel;
use std::alloc::Global;
use std::mem;

/// What a session in memory does.
#[derive(Debug, Drop)]
pub(crate) struct Plan {
    /// The items that it asks to be put in as it begins.
    pub(crate) puts: Items,
    /// Whether the last of these is put in as the last.
    pub(crate) last: bool,
    /// At which parcel it asks to be ended, counted from 1; at 0 as it begins.
    pub(crate) finish_at: u64,
    /// At which parcel it meets a fault, counted from 1; at 0 as it begins.
    pub(crate) fault_at: Option<u64>,
    /// How many times it answers that it is not ready.
    pub(crate) unready: u64,
    /// Whether both sides agreed on it.
    pub(crate) agrees: bool,
}

/// A session that begins with items and one feeder, and keeps the parcels that it takes. It tells
/// which it took, unless it was refused.
#[derive(Drop)]
pub(crate) struct KeepingSession {
    /// The memory for what it keeps.
    pub(crate) alloc: Global,
    /// What it does.
    pub(crate) plan: Plan,
    /// Its feeder, until it begins.
    pub(crate) feeder: Option<CountingFeeder>,
    /// The parcels that it took.
    pub(crate) taken: Vec<Parcel>,
    /// The mark of the feeder that is out.
    pub(crate) out: Option<u64>,
    /// Whether it was begun.
    pub(crate) begun: bool,
    /// The refusal that it answered.
    pub(crate) refused: Option<SessionFault>,
    ghost small: { AllSmall plan.puts },
    ghost fresh: { ForSome feeder IsFresh },
    ghost none_out: { begun ≡ false → out ≡ None },
    ghost unrefused: { begun ≡ false → refused ≡ None },
}

impl KeepingSession {
    /// A session that was not begun.
    pub(crate) fn new(alloc: Global, plan: Plan, feeder: Option<CountingFeeder>) -> KeepingSession
        requires small { AllSmall plan.puts }
        requires fresh { ForSome feeder IsFresh }
        ensures begun { result.begun ≡ false }
        ensures taken { result.taken.items ≡ [] }
        ensures out { result.out ≡ None }
        ensures refused { result.refused ≡ None }
    {
        KeepingSession {
            alloc,
            plan,
            feeder,
            taken: Vec::new(alloc),
            out: None,
            begun: false,
            refused: None,
        }
    }

    /// Lets its feeder out; None where there is no memory.
    fn release(&mut self) -> Option<Vec<CountingFeeder>>
        requires begun { self.old.begun ≡ true }
        requires none_out { self.old.out ≡ None }
        ensures marks { IfSome result (λ fs. marks_in self.new.out ≡ map (λ f. f.mark) fs.items) }
        ensures fresh { IfSome result (λ fs. All IsFresh fs.items) }
        ensures none { IfNone result (self.new.out ≡ None) }
        ensures rest { (self.new.plan ≡ self.old.plan) × (self.new.taken ≡ self.old.taken)
            × (self.new.begun ≡ self.old.begun) × (self.new.refused ≡ self.old.refused) }
    {
        let Some(feeder) = self.feeder.take() else {
            return Some(Vec::new(self.alloc));
        };
        let mut feeders = Vec::new(self.alloc);
        if feeders.reserve(1).is_err() {
            return None;
        }
        self.out = Some(feeder.mark);
        feeders.push_reserved(feeder);
        Some(feeders)
    }

    /// Which parcel comes next, counted from 1.
    fn place(&self) -> u64 {
        (self.taken.len() as u64).saturating_add(1)
    }

    /// A verdict that asks for nothing, but for the end.
    fn nothing(&self, finish: bool) -> Verdict<CountingFeeder>
        ensures puts { result.puts ≡ [] }
        ensures feeders { result.feeders.items ≡ [] }
    {
        Verdict {
            puts: Items::none(self.alloc),
            last: false,
            feeders: Vec::new(self.alloc),
            finish,
        }
    }
}

impl Session for KeepingSession {
    type F = CountingFeeder;

    type Contents = ();

    ghost stands = { λ s a. s.refused ≡ None → a.taken ≡ s.taken.items };

    ghost out = { λ s. marks_in s.out };

    ghost begun = { λ s. s.begun };

    ghost refused = { λ s. s.refused };

    ghost agreed = { λ s. s.plan.agrees };

    fn begin(&mut self, _now: u64) -> Result<Verdict<CountingFeeder>, SessionFault> {
        self.begun = true;
        if self.plan.fault_at == Some(0) {
            self.refused = Some(SessionFault::Write);
            return Err(SessionFault::Write);
        }
        let Some(feeders) = self.release() else {
            self.refused = Some(SessionFault::NoMemory);
            return Err(SessionFault::NoMemory);
        };
        let puts = mem::replace(&mut self.plan.puts, Items::none(self.alloc));
        Ok(Verdict {
            puts,
            last: self.plan.last,
            feeders,
            finish: self.plan.finish_at == 0,
        })
    }

    fn take(&mut self, _now: u64, parcel: Parcel) -> Result<Verdict<CountingFeeder>, SessionFault> {
        let place = self.place();
        if self.plan.fault_at == Some(place) {
            self.refused = Some(SessionFault::Write);
            return Err(SessionFault::Write);
        }
        if self.taken.push(parcel).is_err() {
            self.refused = Some(SessionFault::NoMemory);
            return Err(SessionFault::NoMemory);
        }
        Ok(self.nothing(self.plan.finish_at == place))
    }

    fn ready(&mut self) -> Result<(bool, Vec<CountingFeeder>), SessionFault> {
        let none = Vec::new(self.alloc);
        if self.plan.unready > 0 {
            self.plan.unready -= 1;
            return Ok((false, none));
        }
        Ok((true, none))
    }

    fn back(&mut self, feeder: CountingFeeder) {
        self.out = feeder.child;
    }

    fn agreed(&self) -> bool {
        self.plan.agrees
    }
}
