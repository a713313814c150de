//! Runs over the fakes of the outside and a session in memory: what each comes to, and two workers
//! that go on beside each other.

mod cases;
mod coming;
mod gates;
mod in_threads;
mod outcomes;
mod runs;
mod taking_session;
