//! A session in memory.

ghost use Rattle.std.specs.Prelude.{◌≡◌, [], All, IfNone, IfSome, None, false, map, true};
ghost use Rattle.std.specs.Option.{ForSome};
ghost use Rattle.session_crews.specs.Counting.{marks_in};
ghost use Rattle.session_crews.specs.Fresh.{IsFresh};

use chan_values::Items;
use session_crews::CountingFeeder;
use session_feeds::{Session, SessionFault, Verdict};
use session_run::Parcel;
use std::alloc::Global;

/// A session that asks for nothing, lets one feeder out as it begins, and keeps the parcels that it
/// takes. It tells which it took, unless it was refused.
#[derive(Drop)]
pub(crate) struct TakingSession {
    /// The memory for what it keeps.
    pub(crate) alloc: Global,
    /// Its feeder, until it begins.
    pub(crate) feeder: Option<CountingFeeder>,
    /// The parcels that it took.
    pub(crate) taken: Vec<Parcel>,
    /// At which parcel it meets a fault, counted from 1.
    pub(crate) fault_at: Option<u64>,
    /// Whether both sides agreed on it.
    pub(crate) agrees: bool,
    /// The mark of the feeder that is out.
    pub(crate) out: Option<u64>,
    /// Whether it was begun.
    pub(crate) begun: bool,
    /// The refusal that it answered.
    pub(crate) refused: Option<SessionFault>,
    ghost fresh: { ForSome feeder IsFresh },
    ghost none_out: { begun ≡ false → out ≡ None },
    ghost unrefused: { begun ≡ false → refused ≡ None },
}

impl TakingSession {
    /// A session that was not begun.
    pub(crate) fn new(
        alloc: Global,
        feeder: Option<CountingFeeder>,
        fault_at: Option<u64>,
        agrees: bool,
    ) -> TakingSession
        requires fresh { ForSome feeder IsFresh }
        ensures begun { result.begun ≡ false }
        ensures out { result.out ≡ None }
    {
        TakingSession {
            alloc,
            feeder,
            taken: Vec::new(alloc),
            fault_at,
            agrees,
            out: None,
            begun: false,
            refused: None,
        }
    }

    /// Lets its feeder out; None where there is no memory.
    fn release(&mut self) -> Option<Vec<CountingFeeder>>
        requires begun { self.old.begun ≡ true }
        requires none_out { self.old.out ≡ None }
        ensures marks { IfSome result (λ fs. marks_in self.new.out ≡ map (λ f. f.mark) fs.items) }
        ensures fresh { IfSome result (λ fs. All IsFresh fs.items) }
        ensures none { IfNone result (self.new.out ≡ None) }
        ensures rest { (self.new.taken ≡ self.old.taken) × (self.new.begun ≡ self.old.begun)
            × (self.new.refused ≡ self.old.refused) }
    {
        let Some(feeder) = self.feeder.take() else {
            return Some(Vec::new(self.alloc));
        };
        let mut feeders = Vec::new(self.alloc);
        if feeders.reserve(1).is_err() {
            return None;
        }
        self.out = Some(feeder.mark);
        feeders.push_reserved(feeder);
        Some(feeders)
    }

    /// A verdict that asks for these feeders alone.
    fn verdict(&self, feeders: Vec<CountingFeeder>) -> Verdict<CountingFeeder>
        ensures puts { result.puts ≡ [] }
        ensures feeders { result.feeders ≡ feeders }
    {
        Verdict {
            puts: Items::none(self.alloc),
            last: false,
            feeders,
            finish: false,
        }
    }
}

impl Session for TakingSession {
    type F = CountingFeeder;

    type Contents = ();

    ghost stands = { λ s a. s.refused ≡ None → a.taken ≡ s.taken.items };

    ghost out = { λ s. marks_in s.out };

    ghost begun = { λ s. s.begun };

    ghost refused = { λ s. s.refused };

    ghost agreed = { λ s. s.agrees };

    fn begin(&mut self, _now: u64) -> Result<Verdict<CountingFeeder>, SessionFault> {
        self.begun = true;
        let Some(feeders) = self.release() else {
            self.refused = Some(SessionFault::NoMemory);
            return Err(SessionFault::NoMemory);
        };
        Ok(self.verdict(feeders))
    }

    fn take(&mut self, _now: u64, parcel: Parcel) -> Result<Verdict<CountingFeeder>, SessionFault> {
        let place = (self.taken.len() as u64).saturating_add(1);
        if self.fault_at == Some(place) {
            self.refused = Some(SessionFault::Write);
            return Err(SessionFault::Write);
        }
        if self.taken.push(parcel).is_err() {
            self.refused = Some(SessionFault::NoMemory);
            return Err(SessionFault::NoMemory);
        }
        Ok(self.verdict(Vec::new(self.alloc)))
    }

    fn ready(&mut self) -> Result<(bool, Vec<CountingFeeder>), SessionFault> {
        Ok((true, Vec::new(self.alloc)))
    }

    fn back(&mut self, feeder: CountingFeeder) {
        self.out = feeder.child;
    }

    fn agreed(&self) -> bool {
        self.agrees
    }
}
