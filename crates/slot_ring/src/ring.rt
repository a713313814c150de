//! The ring.

ghost use Rattle.std.specs.Prelude.{◌≡◌, ◌==◌, if◌then◌else◌, ℕ, ◌+◌, ◌^◌, ◌<◌, ◌≤◌, IfOk, IsSome, None, length, max, option_copied};
ghost use Rattle.slot_ring.specs.Ring.{HasRoom, IsRing, empty_ring, value_with, with_value, without};

use crate::slots::{empty_slots, place};
use std::alloc::{AllocError, Global};
use std::marker::Model;

/// Values by number, from a base on, as far as the capacity goes.
#[derive(Drop)]
pub struct SlotRing<T> {
    slots: Vec<Option<T>>,
    base: u64,
    // How many slots have a value.
    taken: usize,
}

impl<T> Model for SlotRing<T> {
    ghost use Rattle.std.specs.Prelude.{vec_len};
    ghost use Rattle.slot_ring.specs.Ring.{Ring, ring_code};

    ghost Value = { Ring T };

    ghost coded = { ring_code T.code };

    ghost use Rattle.slot_ring.specs.Inside.{IsSound, numbered, slot_at};

    ghost view = { λ r. record {
      base = r.base;
      capacity = vec_len r.slots;
      held = numbered (slot_at (vec_len r.slots) r.slots.items) r.base (vec_len r.slots);
    } };

    ghost invariant = { λ r. IsSound (vec_len r.slots) r.slots.items r.base r.taken };
}

impl<T: Drop> SlotRing<T> {
    /// A ring in which so many numbers from a base on have room, and none has a value. It takes all
    /// the memory that the ring will ever need.
    pub fn new(alloc: Global, base: u64, capacity: usize) -> Result<SlotRing<T>, AllocError>
        requires low { base ≤ 2 ^ 63 }
        requires small { capacity < 2 ^ 63 }
        ensures { IfOk result (λ ring. ring ≡ empty_ring base capacity) }
    {
        let slots = empty_slots(alloc, capacity)?;
        Ok(SlotRing {
            slots,
            base,
            taken: 0,
        })
    }

    /// The least number that has room.
    pub fn base(&self) -> u64
        ensures value { result ≡ self.now.base }
        ensures sound { IsRing self.now }
    {
        self.base
    }

    /// How many values there are.
    pub fn len(&self) -> usize
        ensures value { result ≡ length self.now.held }
        ensures sound { IsRing self.now }
    {
        self.taken
    }

    /// The value with a number.
    pub fn get(&self, number: u64) -> Option<&T>
        ensures { option_copied result ≡ value_with self.now.held number }
    {
        match place(self.base, self.slots.len(), number) {
            Some(at) => self.slots[at].as_ref(),
            None => None,
        }
    }

    /// Puts a value under a number, and gives back the one that it replaces.
    pub fn set(&mut self, number: u64, value: T) -> Option<T>
        requires { HasRoom self.old number }
        ensures replaced { result ≡ value_with self.old.held number }
        ensures state { self.new
            ≡ record self.old { held = with_value self.old.held number value } }
        ensures found { (n : ℕ) → value_with self.new.held n
            ≡ (if n == number then Some value else value_with self.old.held n) }
        ensures sound { IsRing self.new }
    {
        let at = (number % self.slots.len() as u64) as usize;
        let replaced = self.slots[at].replace(value);
        self.taken += usize::from(replaced.is_none());
        replaced
    }

    /// Takes out the value with a number.
    pub fn remove(&mut self, number: u64) -> Option<T>
        ensures removed { result ≡ value_with self.old.held number }
        ensures state { self.new ≡ record self.old { held = without self.old.held number } }
    {
        let at = place(self.base, self.slots.len(), number)?;
        let removed = self.slots[at].take();
        self.taken -= usize::from(removed.is_some());
        removed
    }

    /// The first number from `from` on that has a value, or else `end`.
    pub fn next_taken(&self, from: u64, end: u64) -> u64
        requires { from ≤ end }
        ensures low { from ≤ result }
        ensures high { result ≤ end }
        ensures passed { (n : ℕ)
            → from ≤ n → n < result → value_with self.now.held n ≡ None }
        ensures taken { result < end → IsSome (value_with self.now.held result) }
    {
        for number in from..end {
            if self.get(number).is_some() {
                return number;
            }
        }
        end
    }

    /// The first number from `from` on that has no value.
    pub fn next_free(&self, from: u64) -> u64
        requires low { self.now.base ≤ from }
        requires small { from ≤ 2 ^ 63 }
        ensures low { from ≤ result }
        ensures passed { (n : ℕ)
            → from ≤ n → n < result → IsSome (value_with self.now.held n) }
        ensures free { value_with self.now.held result ≡ None }
    {
        let end = from + self.slots.len() as u64;
        for number in from..end {
            if self.get(number).is_none() {
                return number;
            }
        }
        end
    }

    /// Moves the base over numbers without a value, as far as to `end`.
    pub fn skip(&mut self, end: u64)
        requires { end ≤ 2 ^ 63 }
        ensures state { self.new ≡ record self.old { base = self.new.base } }
        ensures low { self.old.base ≤ self.new.base }
        ensures high { self.new.base ≤ max self.old.base end }
        ensures first { self.new.base < end
            → IsSome (value_with self.new.held self.new.base) }
    {
        for number in self.base()..end {
            if self.get(number).is_some() {
                return;
            }
            self.pass();
        }
    }

    /// Moves the base past its number, which has no value.
    fn pass(&mut self)
        requires small { self.old.base < 2 ^ 63 }
        requires free { value_with self.old.held self.old.base ≡ None }
        ensures { self.new ≡ record self.old { base = self.old.base + 1 } }
    {
        self.base += 1;
    }
}
