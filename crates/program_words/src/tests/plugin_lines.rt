//! Command lines of `plugin`.

use super::{is_asked, is_usage, words_of};
use crate::read_plugin_words;
use chan_values::Side;
use session_register::Token;
use std::test::Fail;

const RELAY: &str = "--relay 127.0.0.1:8000";

const TOKEN: &str = "--token s-1.plugin.00000000000000010000000000000007";

const AGENT_TOKEN: &str = "--token s-1.agent.00000000000000010000000000000005";

#[test]
fn lines_say_what_they_are_written_for(rt: HostRuntime) -> Result<(), Fail> {
    let token = "s-1.plugin.00000000000000010000000000000007";
    let cases = [
        (
            format!(in rt.alloc(); "{RELAY} {TOKEN}")?,
            "127.0.0.1:8000",
            0,
            1,
        ),
        (
            format!(in rt.alloc(); "{TOKEN} {RELAY} --listen 0")?,
            "127.0.0.1:8000",
            0,
            1,
        ),
        (
            format!(in rt.alloc();
                "--token={token} --relay=localhost:1 --listen 65535 --connections=2"
            )?,
            "localhost:1",
            65535,
            2,
        ),
        (
            format!(in rt.alloc(); "--connections 65535 {TOKEN} --relay localhost:65535")?,
            "localhost:65535",
            0,
            65535,
        ),
    ];
    for (line, relay, listen, connections) in cases {
        let words = words_of(rt.alloc(), line.as_str())?;
        match read_plugin_words(rt.alloc(), words.as_slice()) {
            Ok(said) => {
                let opens = said.token;
                assert!(rt; said.relay.as_str() == relay, "{line}");
                assert!(rt;
                    said.listen == listen && said.connections == connections,
                    "{line}"
                );
                assert!(rt;
                    opens.session.as_bytes() == b"s-1".as_slice() && opens.role == Side::Plugin,
                    "{line}"
                );
                assert!(rt;
                    opens.token
                        == Token {
                            count: 1,
                            random: 7
                        },
                    "{line}"
                );
            }
            Err(_) => assert!(rt; false, "{line}"),
        }
    }
    Ok(())
}

#[test]
fn lines_with_a_wrong_word_are_told_by_it(rt: HostRuntime) -> Result<(), Fail> {
    // What stands behind the relay and the token, and the word that is told.
    let cases = [
        ("--listen", "--listen"),
        ("--listen 65536", "--listen"),
        ("--listen 080", "--listen"),
        ("--listen +80", "--listen"),
        ("--listen=", "--listen"),
        ("--listen 80 --listen 80", "--listen"),
        ("--connections 0", "--connections"),
        ("--connections 65536", "--connections"),
        ("--connections 1 --connections=1", "--connections"),
        (
            "--token=s-1.plugin.00000000000000010000000000000007",
            "--token",
        ),
        ("--relay 127.0.0.1:8000", "--relay"),
        ("--mux", "--mux"),
        ("--lis 80", "--lis"),
        ("80", "80"),
        ("-- 80", "80"),
        ("-x", "-x"),
    ];
    for (rest, word) in cases {
        let line = format!(in rt.alloc(); "{RELAY} {TOKEN} {rest}")?;
        let words = words_of(rt.alloc(), line.as_str())?;
        let read = read_plugin_words(rt.alloc(), words.as_slice());
        assert!(rt; is_usage(&read, word), "{line}");
    }
    Ok(())
}

#[test]
fn relay_and_token_have_to_be_there(rt: HostRuntime) -> Result<(), Fail> {
    let cases = [
        ("", "--relay <ADDRESS>"),
        (RELAY, "--token <TOKENVALUE>"),
        (TOKEN, "--relay <ADDRESS>"),
    ];
    for (line, word) in cases {
        let words = words_of(rt.alloc(), line)?;
        let read = read_plugin_words(rt.alloc(), words.as_slice());
        assert!(rt; is_usage(&read, word), "{line}");
    }
    Ok(())
}

#[test]
fn relay_has_to_be_an_address(rt: HostRuntime) -> Result<(), Fail> {
    let addresses = [
        "127.0.0.1 ",
        "127.0.0.1:0",
        "127.0.0.1:65536",
        "127.0.0.1:08000",
        "127.0.0.2:8000",
        "Localhost:8000",
        "localhost:8000/",
        ":8000",
    ];
    for address in addresses {
        let line = format!(in rt.alloc(); "--relay {address} {TOKEN}")?;
        let words = words_of(rt.alloc(), line.as_str())?;
        let read = read_plugin_words(rt.alloc(), words.as_slice());
        assert!(rt; is_usage(&read, "--relay"), "{line}");
    }
    Ok(())
}

#[test]
fn token_has_to_be_one_of_the_plugin(rt: HostRuntime) -> Result<(), Fail> {
    let tokens = [
        AGENT_TOKEN,
        "--token s-1.plugin.0000000000000001000000000000000",
        "--token s-1.plugin.0000000000000001000000000000000G",
        "--token .plugin.00000000000000010000000000000007",
        "--token plugin",
    ];
    for token in tokens {
        let line = format!(in rt.alloc(); "{RELAY} {token}")?;
        let words = words_of(rt.alloc(), line.as_str())?;
        let read = read_plugin_words(rt.alloc(), words.as_slice());
        assert!(rt; is_usage(&read, "--token"), "{line}");
    }
    Ok(())
}

#[test]
fn help_and_version_are_no_faults(rt: HostRuntime) -> Result<(), Fail> {
    let cases = [
        ("--help", "Usage: plugin"),
        ("-h", "Usage: plugin"),
        ("--relay nowhere --help", "Usage: plugin"),
        ("--version", "plugin 0.1.0\n"),
        ("-V", "plugin 0.1.0\n"),
    ];
    for (line, part) in cases {
        let words = words_of(rt.alloc(), line)?;
        let read = read_plugin_words(rt.alloc(), words.as_slice());
        assert!(rt; is_asked(&read, part), "{line}");
    }
    let words = words_of(rt.alloc(), "--nothing --help")?;
    let read = read_plugin_words(rt.alloc(), words.as_slice());
    assert!(rt; is_usage(&read, "--nothing"), "the first fault is told");
    Ok(())
}
