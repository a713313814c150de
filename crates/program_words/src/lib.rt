//! The words of the programs `plugin`, `agent` and `relay`, read by clap as simple commands, and their statuses.
#![tactic(auto)]

mod address;
mod agent_status;
mod agent_words;
mod fault;
mod number;
mod options;
mod plugin_status;
mod plugin_words;
mod relay_status;
mod relay_words;
mod session_names;
mod why;

pub use address::is_address;
pub use agent_status::AgentStatus;
pub use agent_words::{AgentWords, Work, read_agent_words};
pub use fault::WordsFault;
pub use plugin_status::PluginStatus;
pub use plugin_words::{PluginWords, read_plugin_words};
pub use relay_status::RelayStatus;
pub use relay_words::{RelayWords, read_relay_words};
pub use session_names::{MAX_SESSIONS, SessionNames};

#[cfg(test)]
mod tests;
