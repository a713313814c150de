//! The inbox of a session, as the value of a lock.

ghost use Rattle.std.specs.Prelude.{◌≡◌, []};
ghost use Rattle.session_run.specs.Shelf.{IsLegalShelf, ShelfFollows, StandsForShelf, added_or_not};
ghost use Rattle.session_run.specs.declared.shelf_call.ShelfAnswer.TheVariants as ShelfAnswer;
ghost use Rattle.session_run.specs.declared.shelf_call.ShelfCall.TheVariants as ShelfCall;

use crate::parcel::Parcel;
use crate::shelf_call::{Count, ShelfAnswer, ShelfCall};
use std::alloc::Global;
use std::collections::VecDeque;
use std::marker::Model;
use turn_lock::Turn;

/// The parcels that wait for a session, in the order in which they came, and what was noted for its
/// workers. For callers in several threads: put it into a `TurnLock`.
#[derive(Drop)]
pub struct Shelf {
    parcels: VecDeque<Parcel>,
    openings: u64,
    finish: bool,
    fault: bool,
}

impl Model for Shelf {
    ghost use Rattle.session_run.specs.Shelf.{ShelfState};

    ghost Value = { ShelfState };

    ghost view = { λ s. record {
      parcels = s.parcels.items;
      openings = s.openings;
      finish = s.finish;
      fault = s.fault;
    } };
}

impl Shelf {
    /// An empty shelf, on which nothing was noted.
    pub fn new(alloc: Global) -> Shelf
        ensures stands { StandsForShelf result [] }
        ensures legal { IsLegalShelf [] }
    {
        Shelf {
            parcels: VecDeque::new(alloc),
            openings: 0,
            finish: false,
            fault: false,
        }
    }

    /// Adds a parcel behind the others, if there is memory for it.
    fn add(&mut self, parcel: Parcel) -> ShelfAnswer
        ensures { ShelfFollows self.old self.new (ShelfCall.Add parcel) result }
    {
        let added = self.parcels.push_back(parcel).is_ok();
        added_or_not(added)
    }

    /// Takes the first parcel.
    fn first(&mut self) -> Option<Parcel>
        ensures { ShelfFollows self.old self.new ShelfCall.First (ShelfAnswer.First result) }
    {
        self.parcels.pop_front()
    }

    /// What waits and what was noted.
    fn count(&self) -> Count
        ensures { ShelfFollows self.now self.now ShelfCall.Count (ShelfAnswer.Count result) }
    {
        Count {
            parcels: self.parcels.len() as u64,
            openings: self.openings,
            finish: self.finish,
            fault: self.fault,
        }
    }

    /// Notes a connection.
    fn note_opening(&mut self)
        ensures { ShelfFollows self.old self.new ShelfCall.Opening ShelfAnswer.Done }
    {
        self.openings = self.openings.saturating_add(1);
    }

    /// Notes that the session is to finish, or a fault.
    fn note_finish(&mut self, fault: bool)
        ensures { ShelfFollows self.old self.new (ShelfCall.Finish fault) ShelfAnswer.Done }
    {
        self.finish |= !fault;
        self.fault |= fault;
    }

    /// Makes the call that is named.
    fn call(&mut self, call: ShelfCall) -> ShelfAnswer
        ensures { ShelfFollows self.old self.new call result }
    {
        match call {
            ShelfCall::Add(parcel) => self.add(parcel),
            ShelfCall::First => ShelfAnswer::First(self.first()),
            ShelfCall::Count => ShelfAnswer::Count(self.count()),
            ShelfCall::Opening => {
                self.note_opening();
                ShelfAnswer::Done
            }
            ShelfCall::Finish(fault) => {
                self.note_finish(fault);
                ShelfAnswer::Done
            }
        }
    }
}

/// The answer to a parcel that was added, or for which there was no memory.
fn added_or_not(added: bool) -> ShelfAnswer
    ensures { result ≡ added_or_not added }
{
    if added {
        ShelfAnswer::Added
    } else {
        ShelfAnswer::NoMemory
    }
}

impl Turn for Shelf {
    type Call = ShelfCall;

    type Answer = ShelfAnswer;

    type Setting = ();

    ghost legal = { λ _ calls. IsLegalShelf calls };

    ghost stands = { StandsForShelf };

    ghost callable = { λ _. Unit {0} };

    ghost setting = { λ _. tt };

    ghost unset = { tt };

    fn act(&mut self, call: ShelfCall) -> ShelfAnswer {
        self.call(call)
    }
}
