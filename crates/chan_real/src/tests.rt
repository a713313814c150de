//! The real objects, at the system.

mod objects;
mod starts;
mod streams;
