//! The text side of the program `lab`: what a line of a script says, and what a line of a report
//! looks like. There is no input and no output here.
#![tactic(auto)]

mod command;
mod grammar;
mod hexadecimal;
mod laws;
mod outcome;
mod pieces;
mod relay_command;
mod relay_grammar;
mod report;
mod stream_command;
mod stream_grammar;
#[cfg(test)]
mod tests;
mod verb;
mod word;

pub use command::{Action, Command};
pub use grammar::parse;
pub use laws::{
    a_line_says_one_command, a_line_says_one_relay_command, a_line_says_one_stream_command,
};
pub use outcome::{Outcome, RelayOutcome, StreamOutcome};
pub use pieces::Lines;
pub use relay_command::{RelayAction, RelayCommand};
pub use relay_grammar::parse_relay;
pub use report::push_line;
pub use stream_command::{StreamAction, StreamCommand};
pub use stream_grammar::parse_stream;
pub use verb::Verb;
pub use word::{Which, read_number};
