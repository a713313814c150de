//! The real objects behind the traits of `chan_io`: thin adapters that decide nothing.
//!
//! They tell nothing of content. What the system gives and takes is tested, not proved.
#![tactic(auto)]

mod bell;
mod stream_sink;
mod stream_source;
mod system_clock;
mod system_entropy;
#[cfg(test)]
mod tests;
mod thread_spawner;

pub use stream_sink::StreamSink;
pub use stream_source::StreamSource;
pub use system_clock::SystemClock;
pub use system_entropy::SystemEntropy;
pub use thread_spawner::ThreadSpawner;
