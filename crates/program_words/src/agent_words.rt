//! The words of `agent`.

ghost use Rattle.std.specs.Prelude.{◌≡◌, ℕ, Bool, IfOk, IfErr, codes};
ghost use Rattle.clap.specs.Words.{app_of, first_of, found_of, rows_of};
ghost use Rattle.program_words.specs.AgentLine.{IsAgentLine, SaysAgent, SaysWork};
ghost use Rattle.program_words.specs.Commands.{agent, flag};
ghost use Rattle.program_words.specs.Faults.{AsksText, Tells};
ghost use Rattle.program_words.specs.Options.{IsPositive, SaysFlag, SaysNumber};
ghost use Rattle.program_words.specs.declared.agent_words.AgentWords.{AgentWords};
ghost use Rattle.program_words.specs.declared.agent_words.Work.{Work};

use crate::fault::{WordsFault, wrong};
use crate::number::read_positive;
use crate::options::{
    RELAY_HELP, find, option, program, read_address, read_token, texts_of, value_of,
};
use chan_values::{NoMemory, Side, Text, Word};
use clap::{Arg, ArgAction, ArgMatches, Command};
use session_register::TokenValue;
use std::alloc::Global;

const ABOUT: &str = "The end of a session at the managed machine: a program, or a port";

const TOKEN_HELP: &str = "The agent's token, as the relay printed it: s-1.agent. and 32 digits";

const SHELL_HELP: &str = "The program to run, without arguments, as /bin/sh; this or --port";

const PORT_HELP: &str = "The port of this machine to connect to, as 5432; this or --shell";

const MUX_HELP: &str = "With --port 5432 --mux, one connection for each stream of the session";

const EXAMPLE: &str = "Example: agent --relay 127.0.0.1:8000 \
    --token s-1.agent.00000000000000010000000000000005 --port 5432 --mux";

/// What the agent is to do.
#[derive(Debug, Drop)]
pub enum Work {
    /// To run this program, without arguments.
    Shell(Text),
    /// To connect to this port of its machine: once for each stream where `mux`, else once.
    Port { port: u16, mux: bool },
}

/// What the words of `agent` say.
#[derive(Debug, Drop)]
pub struct AgentWords {
    /// The relay's address, `HOST:PORT`.
    pub relay: Text,
    /// What opens the session, of the agent's role.
    pub token: TokenValue,
    /// What the agent is to do.
    pub work: Work,
}

/// What the words behind the program's name say.
pub fn read_agent_words(alloc: Global, words: &[Word]) -> Result<AgentWords, WordsFault>
    ensures line { IfOk result (λ line. IsAgentLine line words.now) }
    ensures fault { IfErr result (λ fault. Tells fault
        (AsksText agent words.now) ((line : AgentWords) × IsAgentLine line words.now)) }
{
    let texts = texts_of(alloc, words)?;
    let command = agent_command(alloc)?;
    let matches = find(alloc, command, texts.as_slice())?;
    read_line(alloc, &matches)
}

/// The command, as clap has it.
fn agent_command<'a>(alloc: Global) -> Result<Command<'a>, NoMemory>
    ensures { IfOk result (λ command. app_of command ≡ agent) }
{
    let relay = option(alloc, "relay", "ADDRESS", RELAY_HELP);
    let token = option(alloc, "token", "TOKENVALUE", TOKEN_HELP);
    let shell = option(alloc, "shell", "PROGRAM", SHELL_HELP);
    let port = option(alloc, "port", "PORT", PORT_HELP);
    let mux = Arg::new(alloc, "mux")
        .long("mux")
        .action(ArgAction::SetTrue)
        .help(MUX_HELP);
    let command = program(alloc, "agent", ABOUT, EXAMPLE)
        .arg(relay.required(true))?
        .arg(token.required(true))?
        .arg(shell)?
        .arg(port)?
        .arg(mux)?;
    Ok(command)
}

/// What the values of the options say.
fn read_line(alloc: Global, matches: &ArgMatches) -> Result<AgentWords, WordsFault>
    ensures line { IfOk result (SaysAgent (rows_of (found_of matches.now))) }
    ensures fault { IfErr result (λ fault. Tells fault ⊥
        ((line : AgentWords) × SaysAgent (rows_of (found_of matches.now)) line)) }
{
    let relay = read_address(alloc, matches)?;
    let token = read_token(alloc, matches, Side::Agent)?;
    let work = read_work(alloc, matches)?;
    Ok(AgentWords { relay, token, work })
}

/// What the agent is to do.
fn read_work(alloc: Global, matches: &ArgMatches) -> Result<Work, WordsFault>
    ensures work { IfOk result (SaysWork (rows_of (found_of matches.now))) }
    ensures fault { IfErr result (λ fault. Tells fault ⊥
        ((work : Work) × SaysWork (rows_of (found_of matches.now)) work)) }
{
    let mux = read_mux(alloc, matches)?;
    match (value_of(matches, "shell"), value_of(matches, "port")) {
        (Some(program), None) => {
            if mux {
                return Err(wrong(alloc, "error: --mux goes with --port alone\n"));
            }
            let program = String::from_str(alloc, program)?;
            Ok(Work::Shell(Text::new(program)))
        }
        (None, Some(port)) => {
            let Some(port) = read_positive(port.as_bytes()) else {
                return Err(wrong(alloc, "error: --port wants a number from 1 to 65535\n"));
            };
            Ok(Work::Port { port, mux })
        }
        _ => {
            let text = "error: one of --shell and --port is wanted\n";
            Err(wrong(alloc, text))
        }
    }
}

/// Whether `--mux` is there.
fn read_mux(alloc: Global, matches: &ArgMatches) -> Result<bool, WordsFault>
    ensures there { IfOk result (SaysFlag (first_of (codes "mux") (rows_of (found_of matches.now)))) }
    ensures fault { IfErr result (λ fault. Tells fault ⊥ ((there : Bool)
        × SaysFlag (first_of (codes "mux") (rows_of (found_of matches.now))) there)) }
{
    match value_of(matches, "mux") {
        Some("true") => Ok(true),
        Some("false") => Ok(false),
        _ => Err(wrong(alloc, "error: --mux takes no value\n")),
    }
}
