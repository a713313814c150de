//! What a feed changed so far, so that it can be taken back where memory is wanted later in it.

ghost use Rattle.std.specs.Prelude.{◌≡◌, ◌<◌, ◌++◌, ◌∷◌, [], ℕ, OnOk, vec_len};
ghost use Rattle.std.specs.Vec.{vec_capacity};
ghost use Rattle.std.specs.Ordering.{nat_cmp};
ghost use Rattle.std.specs.BTreeMap.{get};
ghost use Rattle.smux_store.specs.Streams.{undone, undo_at};

use crate::stream::Stream;
use crate::streams::{cut, set_over};
use chan_values::NoMemory;
use smux_acts::Event;
use std::alloc::Global;
use std::collections::BTreeMap;

/// One change of a stream.
#[derive(Clone, Copy)]
pub enum Step {
    /// The stream began.
    Began(u32),
    /// So many bytes of data came.
    Got(u32, usize),
    /// Its end came.
    Ended(u32),
}

/// The events of a feed so far, and its changes of streams.
#[derive(Drop)]
pub struct Trail {
    pub events: Vec<Event>,
    pub steps: Vec<Step>,
}

impl Trail {
    /// Nothing so far.
    pub fn new(alloc: Global) -> Trail
        ensures events { result.events.items ≡ [] }
        ensures steps { result.steps.items ≡ [] }
    {
        Trail {
            events: Vec::new(alloc),
            steps: Vec::new(alloc),
        }
    }

    /// Takes the memory of one more event and one more step.
    pub fn reserve(&mut self) -> Result<(), NoMemory>
        ensures events { self.new.events.items ≡ self.old.events.items }
        ensures steps { self.new.steps.items ≡ self.old.steps.items }
        ensures event { OnOk result (vec_len self.new.events < vec_capacity self.new.events) }
        ensures step { OnOk result (vec_len self.new.steps < vec_capacity self.new.steps) }
    {
        self.events.reserve(1)?;
        self.steps.reserve(1)?;
        Ok(())
    }

    /// Adds an event and the step that it was.
    pub fn note(&mut self, event: Event, step: Step)
        requires event { vec_len self.old.events < vec_capacity self.old.events }
        requires step { vec_len self.old.steps < vec_capacity self.old.steps }
        ensures events { self.new.events.items ≡ self.old.events.items ++ event ∷ [] }
        ensures steps { self.new.steps.items ≡ self.old.steps.items ++ step ∷ [] }
    {
        self.events.push_reserved(event);
        self.steps.push_reserved(step);
    }
}

/// Takes one step back.
fn step_back(streams: &mut BTreeMap<u32, Stream>, step: Step)
    ensures { (q : ℕ) → get nat_cmp streams.new q ≡ undo_at step q (get nat_cmp streams.old q) }
{
    match step {
        Step::Began(sid) => {
            let _stream = streams.remove(&sid);
        }
        Step::Got(sid, count) => cut(streams, sid, count),
        Step::Ended(sid) => set_over(streams, sid, false),
    }
}

/// Takes all steps back, the latest first.
pub fn walk_back(streams: &mut BTreeMap<u32, Stream>, mut steps: Vec<Step>)
    ensures { (q : ℕ) → get nat_cmp streams.new q ≡ undone steps.items q (get nat_cmp streams.old q) }
{
    while let Some(step) = steps.pop() {
        step_back(streams, step);
    }
}
