//! What the channel reads from and writes to, as traits, with fakes in memory.
//!
//! A trait's ghost members say what its object tells of its content, where it tells it, and how
//! many of its calls failed. The code above is generic and is proved once, for every such object.
#![tactic(auto)]

mod called;
mod clock;
mod dial;
mod dial_log;
mod dialer;
mod discard_sink;
mod ended;
mod entropy;
mod failed;
mod failing;
mod faulty_dialer;
mod faulty_entropy;
mod faulty_link_in;
mod faulty_link_out;
mod faulty_sink;
mod faulty_source;
mod faulty_spawner;
mod fill;
mod got;
mod inbox;
mod job;
mod link;
mod link_in;
mod link_out;
mod outbox;
mod running;
mod running_call;
mod sink;
mod source;
mod spawner;
mod start;
mod steady_dialer;
mod steady_entropy;
mod steady_link_in;
mod steady_link_out;
mod steady_source;
mod steady_spawner;
mod still_clock;
#[cfg(test)]
mod tests;
mod thread;

pub use called::{AnswerKeeps, Called};
pub use chan_values::{Bytes, NoMemory, Side, Text, Word};
pub use clock::Clock;
pub use dial::Dial;
pub use dialer::Dialer;
pub use discard_sink::DiscardSink;
pub use ended::{Ended, MayEnd};
pub use entropy::Entropy;
pub use failed::{Failed, IoFault};
pub use faulty_dialer::FaultyDialer;
pub use faulty_entropy::FaultyEntropy;
pub use faulty_link_in::FaultyLinkIn;
pub use faulty_link_out::FaultyLinkOut;
pub use faulty_sink::FaultySink;
pub use faulty_source::FaultySource;
pub use faulty_spawner::FaultySpawner;
pub use got::Got;
pub use job::Job;
pub use link::Link;
pub use link_in::LinkIn;
pub use link_out::LinkOut;
pub use running::{Running, Work};
pub use running_call::{CallWork, RunningCall};
pub use sink::Sink;
pub use source::Source;
pub use spawner::Spawner;
pub use start::{NoThread, Start};
pub use steady_dialer::SteadyDialer;
pub use steady_entropy::SteadyEntropy;
pub use steady_link_in::SteadyLinkIn;
pub use steady_link_out::SteadyLinkOut;
pub use steady_source::SteadySource;
pub use steady_spawner::SteadySpawner;
pub use still_clock::StillClock;
