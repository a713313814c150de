//! A ring of slots for values by number: the value with the number n stands in slot n modulo the
//! capacity. The numbers that have room begin at a base, which only rises.
#![tactic(auto)]

mod ring;
mod slots;
#[cfg(test)]
mod tests;

pub use ring::SlotRing;
