//! Whole texts, as clap lays them out.

use super::words_of;
use crate::{WordsFault, read_agent_words, read_plugin_words, read_relay_words};
use std::test::Fail;

fn text_of<T>(read: &Result<T, WordsFault>) -> Option<&str> {
    match read {
        Err(WordsFault::Asked(text)) => Some(text.as_str()),
        Err(WordsFault::Usage(text)) => Some(text.as_str()),
        _ => None,
    }
}

#[test]
fn help_says_what_each_word_means_with_an_example(rt: HostRuntime) -> Result<(), Fail> {
    let plugin = "\
The end of a session at the operator's machine: a shell's terminal, or a local port

Usage: plugin [OPTIONS] --relay <ADDRESS> --token <TOKENVALUE>

Options:
      --relay <ADDRESS>     Where the relay listens, as 127.0.0.1:8000 or localhost:8000
      --token <TOKENVALUE>  The plugin's token, as the relay printed it: s-1.plugin. and 32 digits
      --listen <PORT>       In a port session, the local port to listen at, as 8080; 0: any
      --connections <N>     In a port session with streams, ends it after N connections, as 2
  -h, --help                Print help
  -V, --version             Print version

Example: plugin --relay 127.0.0.1:8000 --token s-1.plugin.00000000000000010000000000000007 --listen 8080
";
    let agent = "\
The end of a session at the managed machine: a program, or a port

Usage: agent [OPTIONS] --relay <ADDRESS> --token <TOKENVALUE>

Options:
      --relay <ADDRESS>     Where the relay listens, as 127.0.0.1:8000 or localhost:8000
      --token <TOKENVALUE>  The agent's token, as the relay printed it: s-1.agent. and 32 digits
      --shell <PROGRAM>     The program to run, without arguments, as /bin/sh; this or --port
      --port <PORT>         The port of this machine to connect to, as 5432; this or --shell
      --mux                 With --port 5432 --mux, one connection for each stream of the session
  -h, --help                Print help
  -V, --version             Print version

Example: agent --relay 127.0.0.1:8000 --token s-1.agent.00000000000000010000000000000005 --port 5432 --mux
";
    let relay = "\
Joins the two ends of each session, and prints what opens a new one

Usage: relay [OPTIONS] --port <PORT> --sessions <NAMES> --store <FILE>

Options:
      --port <PORT>       The port to listen at, as 8000; at 0 the system picks one
      --sessions <NAMES>  The sessions to serve, 1 to 64 different names, as s-1,s-2
      --store <FILE>      The file that keeps the sessions' tokens, as sessions.db
      --drop-after <N>    Drops a plugin's connection once, after N messages, as 3; 0: never
  -h, --help              Print help
  -V, --version           Print version

Example: relay --port 8000 --sessions s-1,s-2 --store sessions.db
";
    let words = words_of(rt.alloc(), "--help")?;
    let asked = words.as_slice();
    assert!(rt;
        text_of(&read_plugin_words(rt.alloc(), asked)) == Some(plugin),
        "plugin"
    );
    assert!(rt;
        text_of(&read_agent_words(rt.alloc(), asked)) == Some(agent),
        "agent"
    );
    assert!(rt;
        text_of(&read_relay_words(rt.alloc(), asked)) == Some(relay),
        "relay"
    );
    Ok(())
}

#[test]
fn a_missing_option_is_told_with_the_usage(rt: HostRuntime) -> Result<(), Fail> {
    let wanted = "\
error: the following required arguments were not provided:
  --sessions <NAMES>
  --store <FILE>

Usage: relay --port <PORT> --sessions <NAMES> --store <FILE>

For more information, try '--help'.
";
    let words = words_of(rt.alloc(), "--port 1")?;
    assert!(rt;
        text_of(&read_relay_words(rt.alloc(), words.as_slice())) == Some(wanted),
        "relay"
    );
    Ok(())
}
