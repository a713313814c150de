//! What clap finds in words.

ghost use Rattle.std.specs.Prelude.{◌≡◌, ◌≤◌, true, false, List, map, length, option_map, codes, IfOk, IfErr};
ghost use Rattle.chan_values.specs.declared.side.Side.{Side};
ghost use Rattle.session_register.specs.declared.token_value.TokenValue.{TokenValue};
ghost use Rattle.clap.specs.Words.{Text, app_of, fault_of, first_of, found_of, is_simple, is_simple_and_free};
ghost use Rattle.clap.specs.Words.{matches_of, rows_of, rule_of};
ghost use Rattle.program_words.specs.Commands.{Takes, option, program};
ghost use Rattle.program_words.specs.Faults.{AsksText, Tells};
ghost use Rattle.program_words.specs.Options.{SaysAddress, SaysToken};

use crate::address::is_address;
use crate::fault::{WordsFault, wrong};
use chan_values::{NoMemory, Side, Text, Word};
use clap::error::ErrorKind;
use clap::{Arg, ArgAction, ArgMatches, Command};
use session_register::TokenValue;
use std::alloc::Global;

/// The version that the programs tell.
const VERSION: &str = "0.1.0";

/// What help says of the option for the relay's address.
pub const RELAY_HELP: &str = "Where the relay listens, as 127.0.0.1:8000 or localhost:8000";

/// A command over the words behind the program's name. Its help says `about` at first and `example` last.
pub fn program<'a>(alloc: Global, name: &'a str, about: &'a str, example: &'a str) -> Command<'a>
    ensures { app_of result ≡ program name.entry.now }
{
    Command::new(alloc, name)
        .version(VERSION)
        .about(about)
        .after_help(example)
        .no_binary_name(true)
}

/// An option with one value, which help calls `what`.
pub fn option<'a>(alloc: Global, name: &'a str, what: &'a str, help: &'a str) -> Arg<'a>
    ensures rule { rule_of result ≡ option name.now }
    ensures local { result.global ≡ false }
{
    Arg::new(alloc, name)
        .long(name)
        .action(ArgAction::Set)
        .value_name(what)
        .help(help)
}

/// The texts of words.
pub fn texts_of(alloc: Global, words: &[Word]) -> Result<Vec<&str>, NoMemory>
    ensures { IfOk result (λ texts. map (λ s. s.now) texts.items ≡ words.now) }
{
    let mut texts = Vec::new(alloc);
    for word in words {
        texts.push(word.as_str())?;
    }
    Ok(texts)
}

/// What clap finds in the words, or its own text where it does not take them.
pub fn find<'a>(
    alloc: Global,
    command: Command<'a>,
    words: &'a [&'a str],
) -> Result<ArgMatches<'a>, WordsFault>
    requires simple { is_simple (app_of command) ≡ true }
    requires free { is_simple_and_free (app_of command) ≡ true }
    requires one { (texts : List Text) → length (fault_of (app_of command) texts) ≤ 1 }
    ensures takes { IfOk result (λ _. Takes (app_of command.entry) (map (λ s. s.now) words.entry.now)) }
    ensures finds { IfOk result (λ m.
        rows_of (found_of m) ≡ matches_of (app_of command.entry) (map (λ s. s.now) words.entry.now)) }
    ensures fault { IfErr result (λ fault. Tells fault
        (AsksText (app_of command.entry) (map (λ s. s.now) words.entry.now))
        (Takes (app_of command.entry) (map (λ s. s.now) words.entry.now))) }
{
    match command.try_get_matches_from(words) {
        Ok(matches) => Ok(matches),
        Err(error) => {
            if error.kind() == ErrorKind::OutOfMemory {
                return Err(WordsFault::NoMemory);
            }
            let text = Text::new(format!(in alloc; "{error}")?);
            if error.use_stderr() {
                Err(WordsFault::Usage(text))
            } else {
                Err(WordsFault::Asked(text))
            }
        }
    }
}

/// The value of an option.
pub fn value_of<'a>(matches: &ArgMatches<'a>, name: &str) -> Option<&'a str>
    ensures { option_map (λ s. s.now) result ≡ first_of name.now (rows_of (found_of matches.now)) }
{
    matches.get_str(name)
}

/// The relay's address.
pub fn read_address(alloc: Global, matches: &ArgMatches) -> Result<Text, WordsFault>
    ensures address { IfOk result
        (SaysAddress (first_of (codes "relay") (rows_of (found_of matches.now)))) }
    ensures fault { IfErr result (λ fault. Tells fault ⊥ ((address : Text)
        × SaysAddress (first_of (codes "relay") (rows_of (found_of matches.now))) address)) }
{
    let Some(relay) = value_of(matches, "relay") else {
        return Err(wrong(alloc, "error: --relay is missing\n"));
    };
    if !is_address(relay) {
        let text =
            "error: --relay wants HOST:PORT, with the host 127.0.0.1 or localhost and a port \
            from 1 to 65535\n";
        return Err(wrong(alloc, text));
    }
    let copied = String::from_str(alloc, relay)?;
    Ok(Text::new(copied))
}

/// What opens the session, which has to be of this role.
pub fn read_token(alloc: Global, matches: &ArgMatches, role: Side) -> Result<TokenValue, WordsFault>
    ensures token { IfOk result
        (SaysToken (first_of (codes "token") (rows_of (found_of matches.now))) role) }
    ensures fault { IfErr result (λ fault. Tells fault ⊥ ((token : TokenValue)
        × SaysToken (first_of (codes "token") (rows_of (found_of matches.now))) role token)) }
{
    let Some(text) = value_of(matches, "token") else {
        return Err(wrong(alloc, "error: --token is missing\n"));
    };
    let Some(token) = TokenValue::read(text.as_bytes()) else {
        let text = "error: --token wants SESSION.ROLE.TOKEN, as the relay printed it\n";
        return Err(wrong(alloc, text));
    };
    if token.role != role {
        let text = "error: the token of --token is the other program's\n";
        return Err(wrong(alloc, text));
    }
    Ok(token)
}
