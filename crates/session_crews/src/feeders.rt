//! Lists of feeders that grow without memory at the moment when it may be wanted.

ghost use Rattle.std.specs.Prelude.{◌≡◌, ◌∷◌, [], ◌++◌, Some, None, MatchOption};
ghost use Rattle.session_crews.specs.Places.{feeders_in};

use chan_values::NoMemory;
use std::alloc::Global;
use std::collections::LinkedList;
use std::sync::Wait;

/// A place for one feeder, made before the feeder is there.
#[derive(Drop)]
pub struct Place<F> {
    list: LinkedList<Option<F>>,
    ghost one: { list ≡ None ∷ [] },
}

/// Feeders, in order, each in a place. A place may be empty.
#[derive(Drop)]
pub struct Feeders<F> {
    /// The places.
    pub list: LinkedList<Option<F>>,
}

impl<F: Drop> Place<F> {
    /// A place.
    pub(crate) fn new(alloc: Global) -> Result<Place<F>, NoMemory> {
        let mut list = LinkedList::new(alloc);
        if list.push_back(None).is_err() {
            return Err(NoMemory);
        }
        Ok(Place { list })
    }

    /// The feeder in this place.
    pub(crate) fn fill(self, feeder: F) -> Feeders<F>
        ensures { result.list ≡ Some feeder ∷ [] }
    {
        let Place { mut list } = self;
        if let Some(first) = list.front_mut() {
            *first = Some(feeder);
        }
        Feeders { list }
    }
}

impl<F: Drop> Feeders<F> {
    /// No feeders.
    pub fn none(alloc: Global) -> Feeders<F>
        ensures { result.list ≡ [] }
    {
        Feeders {
            list: LinkedList::new(alloc),
        }
    }

    /// Takes the first feeder out.
    pub fn take_first<R: Wait>(&mut self, rt: &R) -> Option<F>
        ensures { MatchOption result (feeders_in self.old.list ≡ [])
            (λ f. feeders_in self.old.list ≡ f ∷ feeders_in self.new.list) }
    {
        for _ in rt.forever() {
            match self.list.pop_front() {
                Some(Some(feeder)) => return Some(feeder),
                Some(None) => {}
                None => return None,
            }
        }
        unreachable!()
    }

    /// Adds others at the end. It takes no memory.
    pub fn append<R: Wait>(&mut self, rt: &R, mut others: Feeders<F>)
        ensures { self.new.list ≡ self.old.list ++ others.list }
    {
        if self.list.append(&mut others.list).is_err() {
            // A list of 2^63 places doesn't fit into memory.
            for _ in rt.forever() {}
        }
    }
}
