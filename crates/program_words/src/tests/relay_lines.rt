//! Command lines of `relay`.

use super::{is_asked, is_usage, words_of};
use crate::read_relay_words;
use std::alloc::Global;
use std::test::Fail;

// So many different names, joined by commas.
fn names(alloc: Global, count: usize) -> Result<String, Fail> {
    let mut text = String::from_str(alloc, "s-0")?;
    for n in 1..count {
        write!(text, ",s-{n}")?;
    }
    Ok(text)
}

#[test]
fn lines_say_what_they_are_written_for(rt: HostRuntime) -> Result<(), Fail> {
    let cases = [
        (
            "--port 0 --sessions s-1 --store sessions.db",
            0,
            "sessions.db",
            0,
        ),
        (
            "--store=kept/x,y --sessions=s-1 --port=65535 --drop-after=18446744073709551615",
            65535,
            "kept/x,y",
            18_446_744_073_709_551_615,
        ),
        (
            "--drop-after 3 --store :memory: --sessions s-1 --port 8000",
            8000,
            ":memory:",
            3,
        ),
    ];
    for (line, port, store, drop_after) in cases {
        let words = words_of(rt.alloc(), line)?;
        match read_relay_words(rt.alloc(), words.as_slice()) {
            Ok(said) => {
                assert!(rt;
                    said.port == port && said.drop_after == drop_after,
                    "{line}"
                );
                assert!(rt; said.store.as_str() == store, "{line}");
                let names = said.sessions.as_slice();
                assert!(rt;
                    names.len() == 1 && names[0].as_bytes() == b"s-1".as_slice(),
                    "{line}"
                );
            }
            Err(_) => assert!(rt; false, "{line}"),
        }
    }
    Ok(())
}

#[test]
fn names_stand_in_the_order_of_the_words(rt: HostRuntime) -> Result<(), Fail> {
    let line = "--port 1 --store f --sessions b,-,A,a,a-1";
    let words = words_of(rt.alloc(), line)?;
    match read_relay_words(rt.alloc(), words.as_slice()) {
        Ok(said) => {
            let mut joined = String::new(rt.alloc());
            for name in said.sessions.as_slice() {
                write!(joined, "{}|", name.as_str())?;
            }
            assert!(rt; joined.as_str() == "b|-|A|a|a-1|", "{joined}");
        }
        Err(_) => assert!(rt; false, "{line}"),
    }
    let all = names(rt.alloc(), 64)?;
    let line = format!(in rt.alloc(); "--port 1 --store f --sessions {all}")?;
    let words = words_of(rt.alloc(), line.as_str())?;
    match read_relay_words(rt.alloc(), words.as_slice()) {
        Ok(said) => assert!(rt; said.sessions.as_slice().len() == 64, "64 names"),
        Err(_) => assert!(rt; false, "64 names"),
    }
    Ok(())
}

#[test]
fn lines_with_a_wrong_word_are_told_by_it(rt: HostRuntime) -> Result<(), Fail> {
    let cases = [
        ("", "--port <PORT>"),
        ("--port 1 --store f", "--sessions <NAMES>"),
        ("--port 1 --sessions s-1", "--store <FILE>"),
        ("--sessions s-1 --store f", "--port <PORT>"),
        ("--port 65536 --sessions s-1 --store f", "--port"),
        ("--port 00 --sessions s-1 --store f", "--port"),
        ("--port 1 --port 1 --sessions s-1 --store f", "--port"),
        (
            "--port 1 --sessions s-1 --sessions s-2 --store f",
            "--sessions",
        ),
        ("--port 1 --sessions s-1 s-2 --store f", "s-2"),
        ("--port 1 --sessions= --store f", "--sessions"),
        ("--port 1 --sessions , --store f", "--sessions"),
        ("--port 1 --sessions s-1, --store f", "--sessions"),
        ("--port 1 --sessions ,s-1 --store f", "--sessions"),
        ("--port 1 --sessions s-1,,s-2 --store f", "--sessions"),
        ("--port 1 --sessions s_1 --store f", "--sessions"),
        ("--port 1 --sessions s-1,s-2,s-1 --store f", "--sessions"),
        (
            "--port 1 --sessions s-1 --store f --drop-after 18446744073709551616",
            "--drop-after",
        ),
        (
            "--port 1 --sessions s-1 --store f --drop-after 03",
            "--drop-after",
        ),
        (
            "--port 1 --sessions s-1 --store f --drop-after 3 --drop-after 3",
            "--drop-after",
        ),
        ("--port 1 --sessions s-1 --store f --drop 3", "--drop"),
        ("--port 1 --sessions s-1 --store f --token x", "--token"),
    ];
    for (line, word) in cases {
        let words = words_of(rt.alloc(), line)?;
        let read = read_relay_words(rt.alloc(), words.as_slice());
        assert!(rt; is_usage(&read, word), "{line}");
    }
    let many = names(rt.alloc(), 65)?;
    let long = format!(in rt.alloc(); "{:a<65}", "")?;
    for sessions in [many.as_str(), long.as_str()] {
        let line = format!(in rt.alloc(); "--port 1 --store f --sessions {sessions}")?;
        let words = words_of(rt.alloc(), line.as_str())?;
        let read = read_relay_words(rt.alloc(), words.as_slice());
        assert!(rt; is_usage(&read, "--sessions"), "{line}");
    }
    Ok(())
}

#[test]
fn help_and_version_are_no_faults(rt: HostRuntime) -> Result<(), Fail> {
    for (line, part) in [("-h", "Usage: relay"), ("--version", "relay 0.1.0\n")] {
        let words = words_of(rt.alloc(), line)?;
        let read = read_relay_words(rt.alloc(), words.as_slice());
        assert!(rt; is_asked(&read, part), "{line}");
    }
    Ok(())
}
