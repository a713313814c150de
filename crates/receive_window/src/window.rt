//! The receive window: stream messages come in any order and leave by number, each once.

ghost use Rattle.std.specs.Prelude.{◌≡◌, ◌↔◌, ℕ, ◌+◌, ◌-◌, ◌^◌, ◌<◌, ◌≤◌, ◌∷◌, if◌then◌else◌, IfOk, IsTrue, length};
ghost use Rattle.chan_values.specs.Limits.{max_window};
ghost use Rattle.receive_window.specs.Window.{AreDifferent, IfRefused, IfTaken, IsNew, IsPastEnd, Releases, empty_window, is_below, is_last_among, is_taken, last_with};

use crate::release::release;
use crate::take::Take;
use chan_values::{Item, Items, NoMemory};
use slot_ring::SlotRing;
use std::alloc::Global;
use std::marker::Model;

/// The stream messages that came, by number.
#[derive(Drop)]
pub struct Window {
    alloc: Global,
    window: u64,
    // Its base is the next number, which it does not have.
    early: SlotRing<Item>,
    // The number of the last message of the direction, once it was taken.
    last: Option<u64>,
}

impl Model for Window {
    ghost use Rattle.receive_window.specs.Window.{WindowState};
    ghost use Rattle.receive_window.specs.Inside.{IsReassembly};

    ghost Value = { WindowState };

    ghost view = { λ w. record {
      window = w.window;
      expected = w.early.base;
      early = w.early.held;
      last = w.last;
    } };

    ghost invariant = { λ w. IsReassembly w.window w.early };
}

impl Window {
    /// A window of 1 to 10,000 messages. It takes the memory for all that may wait in it.
    pub fn new(alloc: Global, window: u64) -> Result<Window, NoMemory>
        requires low { 1 ≤ window }
        requires high { window ≤ max_window }
        ensures { IfOk result (λ taken. taken ≡ empty_window window) }
    {
        Ok(Window {
            alloc,
            window,
            early: SlotRing::new(alloc, 0, window as usize)?,
            last: None,
        })
    }

    /// Takes a stream message, where it is new, inside the window and not past the end of its
    /// direction. It takes memory for the list of what it releases, and no other.
    #[tactic(auto, using(crate::proofs::ItemLemmas::numbers_differ))]
    pub fn take(&mut self, seq: u64, item: Item, last: bool) -> Take
        requires { seq < 2 ^ 63 }
        ensures late { (result ≡ Take.Late) ↔ IsTrue (is_taken self.old seq) }
        ensures beyond { (result ≡ Take.Beyond) ↔ (self.old.expected + self.old.window ≤ seq) }
        ensures past_end { (m : ℕ) → (result ≡ Take.PastEnd m)
            ↔ (IsNew self.old seq × IsPastEnd self.old seq last m) }
        ensures taken { IfTaken result (λ items finished.
            Releases self.old ((seq, item) ∷ self.old.early) (last_with self.old.last seq last)
            items finished self.new) }
        ensures refused { IfRefused result item self.old self.new }
        ensures different { AreDifferent self.new.early }
    {
        let expected = self.early.base();
        if seq < expected || self.early.get(seq).is_some() {
            return Take::Late;
        }
        let ahead = seq - expected;
        if ahead >= self.window {
            return Take::Beyond;
        }
        if let Some(end) = self.end_passed(seq, last) {
            return Take::PastEnd(end);
        }
        let end = last_with(self.last, seq, last);
        if ahead > 0 {
            let _none = self.early.set(seq, item);
            self.last = end;
            return Take::Released(Items::none(self.alloc));
        }
        let next = self.early.next_free(seq + 1);
        let Ok(mut items) = Vec::with_capacity(self.alloc, (next - seq) as usize) else {
            return Take::NoMemory(item);
        };
        items.push_reserved(item);
        release(&mut self.early, next, &mut items);
        self.last = end;
        in_order(Items::new(items), is_last_among(end, expected, next))
    }

    /// The number that shows that a new message comes after the end of its direction, or is not the
    /// last. Only for one that is said to be the last it looks at each slot above it, once.
    fn end_passed(&self, seq: u64, last: bool) -> Option<u64>
        requires from { self.now.expected ≤ seq }
        requires inside { seq < self.now.expected + self.now.window }
        ensures { (m : ℕ) → (result ≡ Some m) ↔ IsPastEnd self.now seq last m }
    {
        if is_below(self.last, seq) {
            return self.last;
        }
        if !last {
            return None;
        }
        let beyond = self.early.base() + self.window;
        let above = self.early.next_taken(seq + 1, beyond);
        if above < beyond { Some(above) } else { None }
    }

    /// The least number that was not taken.
    pub fn expected(&self) -> u64
        ensures { result ≡ self.now.expected }
    {
        self.early.base()
    }

    /// How many items wait for an earlier one: fewer than the window has.
    pub fn held(&self) -> u64
        ensures count { result ≡ length self.now.early }
        ensures different { AreDifferent self.now.early }
        ensures few { result ≤ self.now.window - 1 }
    {
        self.early.len() as u64
    }
}

/// The answer for items that are in order now.
fn in_order(items: Items, finished: bool) -> Take
    ensures { result ≡ (if finished then Take.Finished items else Take.Released items) }
{
    if finished {
        Take::Finished(items)
    } else {
        Take::Released(items)
    }
}

/// The number of the last message, where one more is taken.
fn last_with(before: Option<u64>, seq: u64, last: bool) -> Option<u64>
    ensures { result ≡ last_with before seq last }
{
    if last { Some(seq) } else { before }
}

/// Whether the last message, if it was taken, stands below a number.
fn is_below(last: Option<u64>, seq: u64) -> bool
    ensures { result ≡ is_below last seq }
{
    match last {
        Some(end) => end < seq,
        None => false,
    }
}

/// Whether the last message, if it was taken, is among those from the first bound up to the second.
fn is_last_among(last: Option<u64>, from: u64, to: u64) -> bool
    ensures { result ≡ is_last_among last from to }
{
    match last {
        Some(end) => from <= end && end < to,
        None => false,
    }
}
