//! Deliverers over the fakes of the outside and a session in memory.

mod cases;
mod keeping_session;
mod serving;
