//! The words of `relay`.

ghost use Rattle.std.specs.Prelude.{◌≡◌, ℕ, ◌<◌, ◌^◌, List, Some, IfOk, IfErr, codes};
ghost use Rattle.clap.specs.Words.{Text, app_of, first_of, found_of, rows_of};
ghost use Rattle.program_words.specs.Commands.{relay};
ghost use Rattle.program_words.specs.Faults.{AsksText, Tells};
ghost use Rattle.program_words.specs.Options.{SaysNumber, SaysNumberOr};
ghost use Rattle.program_words.specs.RelayLine.{IsRelayLine, SaysRelay, SaysSessions};
ghost use Rattle.program_words.specs.declared.relay_words.RelayWords.{RelayWords};

use crate::fault::{WordsFault, wrong};
use crate::number::read_short;
use crate::options::{find, option, program, texts_of, value_of};
use crate::session_names::SessionNames;
use chan_values::{NoMemory, Text, Word};
use clap::{ArgMatches, Command};
use lab_script::read_number;
use std::alloc::Global;

const ABOUT: &str = "Joins the two ends of each session, and prints what opens a new one";

const PORT_HELP: &str = "The port to listen at, as 8000; at 0 the system picks one";

const SESSIONS_HELP: &str = "The sessions to serve, 1 to 64 different names, as s-1,s-2";

const STORE_HELP: &str = "The file that keeps the sessions' tokens, as sessions.db";

const DROP_AFTER_HELP: &str = "Drops a plugin's connection once, after N messages, as 3; 0: never";

const EXAMPLE: &str = "Example: relay --port 8000 --sessions s-1,s-2 --store sessions.db";

/// What the words of `relay` say.
#[derive(Debug, Drop)]
pub struct RelayWords {
    /// The port to listen at; at 0 the system picks one.
    pub port: u16,
    /// The sessions that the relay serves, in the order of the words.
    pub sessions: SessionNames,
    /// The file that keeps the register of sessions.
    pub store: Text,
    /// After how many messages of plugins the plugin's connection is dropped, once; at 0 it is not.
    pub drop_after: u64,
}

/// What the words behind the program's name say.
pub fn read_relay_words(alloc: Global, words: &[Word]) -> Result<RelayWords, WordsFault>
    ensures line { IfOk result (λ line. IsRelayLine line words.now) }
    ensures fault { IfErr result (λ fault. Tells fault
        (AsksText relay words.now) ((line : RelayWords) × IsRelayLine line words.now)) }
{
    let texts = texts_of(alloc, words)?;
    let command = relay_command(alloc)?;
    let matches = find(alloc, command, texts.as_slice())?;
    read_line(alloc, &matches)
}

/// The command, as clap has it.
fn relay_command<'a>(alloc: Global) -> Result<Command<'a>, NoMemory>
    ensures { IfOk result (λ command. app_of command ≡ relay) }
{
    let port = option(alloc, "port", "PORT", PORT_HELP);
    let sessions = option(alloc, "sessions", "NAMES", SESSIONS_HELP);
    let store = option(alloc, "store", "FILE", STORE_HELP);
    let drop_after = option(alloc, "drop-after", "N", DROP_AFTER_HELP);
    let command = program(alloc, "relay", ABOUT, EXAMPLE)
        .arg(port.required(true))?
        .arg(sessions.required(true))?
        .arg(store.required(true))?
        .arg(drop_after)?;
    Ok(command)
}

/// What the values of the options say.
fn read_line(alloc: Global, matches: &ArgMatches) -> Result<RelayWords, WordsFault>
    ensures line { IfOk result (SaysRelay (rows_of (found_of matches.now))) }
    ensures fault { IfErr result (λ fault. Tells fault ⊥
        ((line : RelayWords) × SaysRelay (rows_of (found_of matches.now)) line)) }
{
    let port = read_port(alloc, matches)?;
    let sessions = read_sessions(alloc, matches)?;
    let store = read_store(alloc, matches)?;
    let drop_after = read_drop_after(alloc, matches)?;
    Ok(RelayWords {
        port,
        sessions,
        store,
        drop_after,
    })
}

/// The port to listen at.
fn read_port(alloc: Global, matches: &ArgMatches) -> Result<u16, WordsFault>
    ensures port { IfOk result (SaysNumber (first_of (codes "port") (rows_of (found_of matches.now)))) }
    ensures fault { IfErr result (λ fault. Tells fault ⊥ ((n : ℕ) × (n < 2 ^ 16)
        × SaysNumber (first_of (codes "port") (rows_of (found_of matches.now))) n)) }
{
    let Some(text) = value_of(matches, "port") else {
        return Err(wrong(alloc, "error: --port is missing\n"));
    };
    match read_short(text.as_bytes()) {
        Some(n) => Ok(n),
        None => Err(wrong(alloc, "error: --port wants a number from 0 to 65535\n")),
    }
}

/// The sessions to serve.
fn read_sessions(alloc: Global, matches: &ArgMatches) -> Result<SessionNames, WordsFault>
    ensures names { IfOk result
        (SaysSessions (first_of (codes "sessions") (rows_of (found_of matches.now)))) }
    ensures fault { IfErr result (λ fault. Tells fault ⊥ ((names : List Text)
        × SaysSessions (first_of (codes "sessions") (rows_of (found_of matches.now))) names)) }
{
    let Some(text) = value_of(matches, "sessions") else {
        return Err(wrong(alloc, "error: --sessions is missing\n"));
    };
    match SessionNames::read(alloc, text)? {
        Some(names) => Ok(names),
        None => {
            let text =
                "error: --sessions wants 1 to 64 different names, joined by commas, each of 1 to 64 \
                letters, digits or hyphens\n";
            Err(wrong(alloc, text))
        }
    }
}

/// The file that keeps the register.
fn read_store(alloc: Global, matches: &ArgMatches) -> Result<Text, WordsFault>
    ensures store { IfOk result
        (λ store. first_of (codes "store") (rows_of (found_of matches.now)) ≡ Some store) }
    ensures fault { IfErr result (λ fault. Tells fault ⊥ ((store : Text)
        × (first_of (codes "store") (rows_of (found_of matches.now)) ≡ Some store))) }
{
    let Some(store) = value_of(matches, "store") else {
        return Err(wrong(alloc, "error: --store is missing\n"));
    };
    let copied = String::from_str(alloc, store)?;
    Ok(Text::new(copied))
}

/// After how many messages a connection is dropped.
fn read_drop_after(alloc: Global, matches: &ArgMatches) -> Result<u64, WordsFault>
    ensures count { IfOk result
        (SaysNumberOr 0 (first_of (codes "drop-after") (rows_of (found_of matches.now)))) }
    ensures fault { IfErr result (λ fault. Tells fault ⊥ ((n : ℕ) × (n < 2 ^ 64)
        × SaysNumberOr 0 (first_of (codes "drop-after") (rows_of (found_of matches.now))) n)) }
{
    let Some(text) = value_of(matches, "drop-after") else {
        return Ok(0);
    };
    match read_number(text.as_bytes()) {
        Some(n) => Ok(n),
        None => {
            let text = "error: --drop-after wants a number from 0 to 18446744073709551615\n";
            Err(wrong(alloc, text))
        }
    }
}
