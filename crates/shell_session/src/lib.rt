//! Shell sessions: what the two ends of a channel do with the streams of a program. The agent's end
//! starts the program and ends with its status; the plugin's end is the terminal of the user.
#![tactic(auto)]

mod asking;
mod child_feeder;
mod code;
mod exit;
mod flag;
mod running_child;
mod shell_agent;
mod shell_plugin;
mod stream_feeder;
mod streams;
#[cfg(test)]
mod tests;

pub use child_feeder::ChildFeeder;
pub use shell_agent::ShellAgent;
pub use shell_plugin::ShellPlugin;
pub use stream_feeder::StreamFeeder;
pub use streams::Streams;
