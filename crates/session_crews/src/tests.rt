//! Workers of feeders in memory, over an end and a shelf.

mod bench;
mod cases;
