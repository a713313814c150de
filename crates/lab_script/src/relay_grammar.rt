//! Reading a line of a script whose ends reach each other through the relay.

ghost use Rattle.std.specs.Prelude.{◌≡◌, ◌∷◌, IfOk, IfSome, IfNone, MatchOption};
ghost use Rattle.lab_script.specs.declared.relay_command.RelayCommand.{RelayCommand};
ghost use Rattle.lab_script.specs.declared.verb.Verb.TheVariants as verbs;
ghost use Rattle.lab_script.specs.RelayCommand.{IsRelayLine, SaysRelay};
ghost use Rattle.lab_script.specs.RelayGrammar.{BeginsOwn, IsNoEnd, IsNoOperands, IsNoOwn, IsOwn, TakesOperands, relayed, relayed_action};
ghost use Rattle.lab_script.specs.Verb.{verb_text};

use crate::command::{Action, Command};
use crate::grammar::parse;
use crate::pieces::Words;
use crate::relay_command::{RelayAction, RelayCommand};
use crate::verb::Verb;
use crate::word::{Which, read_side};
use chan_values::NoMemory;
use std::alloc::Global;

/// The command that a line says where the relay stands between the ends. `None`: the line is out of the
/// grammar.
pub fn parse_relay(alloc: Global, line: &[u8]) -> Result<Option<RelayCommand>, NoMemory>
    ensures found { IfOk result (λ read. IfSome read (SaysRelay line.now)) }
    ensures none { IfOk result (λ read. IfNone read (¬ IsRelayLine line.now)) }
{
    match parse(alloc, line)? {
        Some(command) => Ok(relayed(command)),
        None => Ok(parse_own(line)),
    }
}

/// The command of the same text, unless it reaches past the relay.
fn relayed(command: Command) -> Option<RelayCommand>
    ensures { result ≡ relayed command }
{
    match command {
        Command::At { moment } => Some(RelayCommand::At { moment }),
        Command::Settle => None,
        Command::On(side, action) => match relayed_action(action) {
            Some(action) => Some(RelayCommand::On(side, action)),
            None => None,
        },
    }
}

/// The action of the same text, unless it reaches past the relay.
fn relayed_action(action: Action) -> Option<RelayAction>
    ensures { result ≡ relayed_action action }
{
    match action {
        Action::Put { item } => Some(RelayAction::Put { item }),
        Action::PutLast { item } => Some(RelayAction::PutLast { item }),
        Action::Pull => Some(RelayAction::Pull),
        Action::Tick => Some(RelayAction::Tick),
        Action::Close => Some(RelayAction::Close),
        _ => None,
    }
}

/// The command of the relay's own verbs that a line says.
fn parse_own(line: &[u8]) -> Option<RelayCommand>
    ensures found { IfSome result (SaysRelay line.now) }
    ensures none { IfNone result
        ((command : RelayCommand) → IsOwn command → ¬ SaysRelay line.now command) }
{
    let mut words = Words::new(line);
    let Some(command) = read_own(&mut words) else {
        return None;
    };
    if words.is_empty() {
        Some(command)
    } else {
        None
    }
}

/// The command that the next words say.
fn read_own(words: &mut Words) -> Option<RelayCommand>
    ensures { MatchOption result (IsNoOwn words.old) (BeginsOwn words.old words.new) }
{
    let Some(word) = words.next_word() else {
        return None;
    };
    let Some(verb) = Verb::read(word) else {
        return None;
    };
    match verb {
        Verb::Finish => Some(RelayCommand::Finish),
        _ => read_on(verb, words),
    }
}

/// The end, and what it does, behind a verb of one end.
fn read_on(verb: Verb, words: &mut Words) -> Option<RelayCommand>
    ensures { MatchOption result (IsNoEnd verb words.old)
        (BeginsOwn (verb_text verb ∷ words.old) words.new) }
{
    let side = read_side(words.next_word()?)?;
    let action = read_action(verb, words)?;
    Some(RelayCommand::On(side, action))
}

/// What an end does, by the verb and the words behind the end.
fn read_action(verb: Verb, words: &mut Words) -> Option<RelayAction>
    ensures { MatchOption result
        (IsNoOperands verb words.old) (TakesOperands verb words.old words.new) }
{
    match verb {
        Verb::Dial => Some(RelayAction::Dial),
        Verb::Gone => Some(RelayAction::Gone),
        Verb::Post => read_post(words),
        Verb::Take => read_take(words),
        _ => None,
    }
}

fn read_post(words: &mut Words) -> Option<RelayAction>
    ensures { MatchOption result
        (IsNoOperands verbs.Post words.old) (TakesOperands verbs.Post words.old words.new) }
{
    let which = Which::read(words.next_word()?)?;
    Some(RelayAction::Post { which })
}

fn read_take(words: &mut Words) -> Option<RelayAction>
    ensures { MatchOption result
        (IsNoOperands verbs.Take words.old) (TakesOperands verbs.Take words.old words.new) }
{
    let which = Which::read(words.next_word()?)?;
    Some(RelayAction::Take { which })
}
