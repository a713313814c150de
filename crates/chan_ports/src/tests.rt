//! The fakes: which of their calls fail, and that the others have an answer.

mod children;
mod links;
mod ports;
