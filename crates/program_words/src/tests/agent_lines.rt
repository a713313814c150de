//! Command lines of `agent`.

use super::{is_asked, is_usage, words_of};
use crate::{Work, read_agent_words};
use chan_values::Side;
use std::test::Fail;

const ENDS: &str = "--relay 127.0.0.1:8000 --token s-1.agent.00000000000000010000000000000005";

// The program, or else the port and whether there are streams.
fn is_work(work: &Work, program: Option<&str>, port: u16, mux: bool) -> bool {
    match work {
        Work::Shell(text) => program == Some(text.as_str()),
        Work::Port {
            port: there,
            mux: streams,
        } => { program.is_none() && *there == port && *streams == mux }
    }
}

#[test]
fn lines_say_what_they_are_written_for(rt: HostRuntime) -> Result<(), Fail> {
    let cases = [
        ("--shell sh", Some("sh"), 0, false),
        ("--shell=/bin/sh", Some("/bin/sh"), 0, false),
        ("--port 1", None, 1, false),
        ("--port=65535 --mux", None, 65535, true),
        ("--mux --port 80", None, 80, true),
    ];
    for (rest, program, port, mux) in cases {
        let line = format!(in rt.alloc(); "{ENDS} {rest}")?;
        let words = words_of(rt.alloc(), line.as_str())?;
        match read_agent_words(rt.alloc(), words.as_slice()) {
            Ok(said) => {
                assert!(rt; said.relay.as_str() == "127.0.0.1:8000", "{line}");
                assert!(rt; said.token.role == Side::Agent, "{line}");
                assert!(rt; is_work(&said.work, program, port, mux), "{line}");
            }
            Err(_) => assert!(rt; false, "{line}"),
        }
    }
    Ok(())
}

#[test]
fn lines_with_a_wrong_word_are_told_by_it(rt: HostRuntime) -> Result<(), Fail> {
    let cases = [
        ("", "--shell"),
        ("--mux", "--port"),
        ("--shell sh --port 80", "--port"),
        ("--shell sh --mux", "--mux"),
        ("--port 0", "--port"),
        ("--port 65536", "--port"),
        ("--port 080", "--port"),
        ("--port 80 --port 80", "--port"),
        ("--port 80 --mux --mux", "--mux"),
        ("--port 80 --mux=true", "--mux"),
        ("--port 80 --mux true", "true"),
        ("--shell sh --shell sh", "--shell"),
        ("--shell", "--shell"),
        ("--shell sh -c", "-c"),
        ("--shell sh --listen 80", "--listen"),
    ];
    for (rest, word) in cases {
        let line = format!(in rt.alloc(); "{ENDS} {rest}")?;
        let words = words_of(rt.alloc(), line.as_str())?;
        let read = read_agent_words(rt.alloc(), words.as_slice());
        assert!(rt; is_usage(&read, word), "{line}");
    }
    let line =
        "--relay localhost:8000 --token s-1.plugin.00000000000000010000000000000007 --shell sh";
    let words = words_of(rt.alloc(), line)?;
    let read = read_agent_words(rt.alloc(), words.as_slice());
    assert!(rt; is_usage(&read, "--token"), "the plugin's token");
    let words = words_of(rt.alloc(), "")?;
    let read = read_agent_words(rt.alloc(), words.as_slice());
    assert!(rt; is_usage(&read, "--relay <ADDRESS>"), "no words");
    Ok(())
}

#[test]
fn help_and_version_are_no_faults(rt: HostRuntime) -> Result<(), Fail> {
    let cases = [
        ("--help", "Usage: agent"),
        ("--shell sh --mux -h", "Usage: agent"),
        ("-V", "agent 0.1.0\n"),
    ];
    for (line, part) in cases {
        let words = words_of(rt.alloc(), line)?;
        let read = read_agent_words(rt.alloc(), words.as_slice());
        assert!(rt; is_asked(&read, part), "{line}");
    }
    Ok(())
}
