//! The words of `plugin`.

ghost use Rattle.std.specs.Prelude.{◌≡◌, ℕ, ◌<◌, ◌^◌, IfOk, IfErr, codes};
ghost use Rattle.clap.specs.Words.{app_of, first_of, found_of, rows_of};
ghost use Rattle.program_words.specs.Commands.{plugin};
ghost use Rattle.program_words.specs.Faults.{AsksText, Tells};
ghost use Rattle.program_words.specs.Options.{IsPositive, SaysNumberOr};
ghost use Rattle.program_words.specs.PluginLine.{IsPluginLine, SaysPlugin};
ghost use Rattle.program_words.specs.declared.plugin_words.PluginWords.{PluginWords};

use crate::fault::{WordsFault, wrong};
use crate::number::{read_positive, read_short};
use crate::options::{
    RELAY_HELP, find, option, program, read_address, read_token, texts_of, value_of,
};
use chan_values::{NoMemory, Side, Text, Word};
use clap::{ArgMatches, Command};
use session_register::TokenValue;
use std::alloc::Global;

const ABOUT: &str =
    "The end of a session at the operator's machine: a shell's terminal, or a local port";

const TOKEN_HELP: &str = "The plugin's token, as the relay printed it: s-1.plugin. and 32 digits";

const LISTEN_HELP: &str = "In a port session, the local port to listen at, as 8080; 0: any";

const CONNECTIONS_HELP: &str = "In a port session with streams, ends it after N connections, as 2";

const EXAMPLE: &str = "Example: plugin --relay 127.0.0.1:8000 \
    --token s-1.plugin.00000000000000010000000000000007 --listen 8080";

/// What the words of `plugin` say.
#[derive(Debug, Drop)]
pub struct PluginWords {
    /// The relay's address, `HOST:PORT`.
    pub relay: Text,
    /// What opens the session, of the plugin's role.
    pub token: TokenValue,
    /// The port to listen at in a port session; at 0 the system picks one.
    pub listen: u16,
    /// After how many connections a port session with streams ends.
    pub connections: u16,
}

/// What the words behind the program's name say.
pub fn read_plugin_words(alloc: Global, words: &[Word]) -> Result<PluginWords, WordsFault>
    ensures line { IfOk result (λ line. IsPluginLine line words.now) }
    ensures fault { IfErr result (λ fault. Tells fault
        (AsksText plugin words.now) ((line : PluginWords) × IsPluginLine line words.now)) }
{
    let texts = texts_of(alloc, words)?;
    let command = plugin_command(alloc)?;
    let matches = find(alloc, command, texts.as_slice())?;
    read_line(alloc, &matches)
}

/// The command, as clap has it.
fn plugin_command<'a>(alloc: Global) -> Result<Command<'a>, NoMemory>
    ensures { IfOk result (λ command. app_of command ≡ plugin) }
{
    let relay = option(alloc, "relay", "ADDRESS", RELAY_HELP);
    let token = option(alloc, "token", "TOKENVALUE", TOKEN_HELP);
    let listen = option(alloc, "listen", "PORT", LISTEN_HELP);
    let connections = option(alloc, "connections", "N", CONNECTIONS_HELP);
    let command = program(alloc, "plugin", ABOUT, EXAMPLE)
        .arg(relay.required(true))?
        .arg(token.required(true))?
        .arg(listen)?
        .arg(connections)?;
    Ok(command)
}

/// What the values of the options say.
fn read_line(alloc: Global, matches: &ArgMatches) -> Result<PluginWords, WordsFault>
    ensures line { IfOk result (SaysPlugin (rows_of (found_of matches.now))) }
    ensures fault { IfErr result (λ fault. Tells fault ⊥
        ((line : PluginWords) × SaysPlugin (rows_of (found_of matches.now)) line)) }
{
    let relay = read_address(alloc, matches)?;
    let token = read_token(alloc, matches, Side::Plugin)?;
    let listen = read_listen(alloc, matches)?;
    let connections = read_connections(alloc, matches)?;
    Ok(PluginWords {
        relay,
        token,
        listen,
        connections,
    })
}

/// The port to listen at.
fn read_listen(alloc: Global, matches: &ArgMatches) -> Result<u16, WordsFault>
    ensures port { IfOk result
        (SaysNumberOr 0 (first_of (codes "listen") (rows_of (found_of matches.now)))) }
    ensures fault { IfErr result (λ fault. Tells fault ⊥ ((n : ℕ) × (n < 2 ^ 16)
        × SaysNumberOr 0 (first_of (codes "listen") (rows_of (found_of matches.now))) n)) }
{
    let Some(text) = value_of(matches, "listen") else {
        return Ok(0);
    };
    match read_short(text.as_bytes()) {
        Some(n) => Ok(n),
        None => Err(wrong(alloc, "error: --listen wants a number from 0 to 65535\n")),
    }
}

/// The number of connections.
fn read_connections(alloc: Global, matches: &ArgMatches) -> Result<u16, WordsFault>
    ensures count { IfOk result (λ n. IsPositive n
        × SaysNumberOr 1 (first_of (codes "connections") (rows_of (found_of matches.now))) n) }
    ensures fault { IfErr result (λ fault. Tells fault ⊥ ((n : ℕ) × IsPositive n
        × SaysNumberOr 1 (first_of (codes "connections") (rows_of (found_of matches.now))) n)) }
{
    let Some(text) = value_of(matches, "connections") else {
        return Ok(1);
    };
    match read_positive(text.as_bytes()) {
        Some(n) => Ok(n),
        None => Err(wrong(
            alloc,
            "error: --connections wants a number from 1 to 65535\n",
        )),
    }
}
