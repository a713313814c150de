//! The workers over the fakes of the outside: what each kind of turn and step comes to.

mod bench;
mod cases;
mod clocks;
mod coming;
mod desk;
mod readers;
mod writers;
