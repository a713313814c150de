//! Reading a line of a script, word by word.

ghost use Rattle.std.specs.Prelude.{◌≡◌, ◌≢◌, ◌∷◌, IfOk, IfSome, IfNone, MatchOption};
ghost use Rattle.chan_values.specs.declared.side.Side.{Side};
ghost use Rattle.lab_script.specs.declared.command.Action.{Action};
ghost use Rattle.lab_script.specs.declared.verb.Verb.TheVariants as verbs;
ghost use Rattle.lab_script.specs.Command.{IsAction, IsScriptLine, Says, operands_of, verb_of};
ghost use Rattle.lab_script.specs.Grammar.{BeginsWith, IsNoAction, IsNoCommand, IsNoItem, TakesAction, TakesItem};
ghost use Rattle.lab_script.specs.Verb.{verb_text};
ghost use Rattle.lab_script.specs.Words.{side_text};

use crate::command::{Action, Command};
use crate::hexadecimal::read_payload;
use crate::pieces::Words;
use crate::verb::Verb;
use crate::word::{Which, read_number, read_short_number, read_side};
use chan_values::{Item, NoMemory};
use std::alloc::Global;

/// The command that a line says. `None`: the line is out of the grammar.
pub fn parse(alloc: Global, line: &[u8]) -> Result<Option<Command>, NoMemory>
    ensures found { IfOk result (λ read. IfSome read (Says line.now)) }
    ensures none { IfOk result (λ read. IfNone read (¬ IsScriptLine line.now)) }
{
    let mut words = Words::new(line);
    let Some(command) = read_command(alloc, &mut words)? else {
        return Ok(None);
    };
    if words.is_empty() {
        Ok(Some(command))
    } else {
        Ok(None)
    }
}

/// The command that the next words say.
fn read_command(alloc: Global, words: &mut Words) -> Result<Option<Command>, NoMemory>
    ensures { IfOk result (λ read.
        MatchOption read (IsNoCommand words.old) (BeginsWith words.old words.new)) }
{
    let Some(word) = words.next_word() else {
        return Ok(None);
    };
    let Some(verb) = Verb::read(word) else {
        return Ok(None);
    };
    match verb {
        Verb::At => Ok(read_at(words)),
        Verb::Settle => Ok(Some(Command::Settle)),
        _ => read_on(alloc, verb, words),
    }
}

/// The moment behind `at`.
fn read_at(words: &mut Words) -> Option<Command>
    ensures { let all = verb_text verbs.At ∷ words.old in
        MatchOption result (IsNoCommand all) (BeginsWith all words.new) }
{
    let moment = read_number(words.next_word()?)?;
    Some(Command::At { moment })
}

/// The end, and what it does, behind a verb of one end.
fn read_on(alloc: Global, verb: Verb, words: &mut Words) -> Result<Option<Command>, NoMemory>
    ensures { IfOk result (λ read. MatchOption read
        ((side : Side) (action : Action) → IsAction action → verb_of action ≡ verb
        → side_text side ∷ operands_of action ≢ words.old)
        (BeginsWith (verb_text verb ∷ words.old) words.new)) }
{
    let Some(word) = words.next_word() else {
        return Ok(None);
    };
    let Some(side) = read_side(word) else {
        return Ok(None);
    };
    match read_action(alloc, verb, words)? {
        Some(action) => Ok(Some(Command::On(side, action))),
        None => Ok(None),
    }
}

/// What an end does, by the verb and the words behind the end.
fn read_action(alloc: Global, verb: Verb, words: &mut Words) -> Result<Option<Action>, NoMemory>
    ensures { IfOk result (λ read.
        MatchOption read (IsNoAction verb words.old) (TakesAction verb words.old words.new)) }
{
    match verb {
        Verb::Put => read_put(alloc, words),
        Verb::Last => read_put_last(alloc, words),
        Verb::Pull => Ok(Some(Action::Pull)),
        Verb::Tick => Ok(Some(Action::Tick)),
        Verb::Close => Ok(Some(Action::Close)),
        Verb::Hear => Ok(read_hear(words)),
        Verb::Hurt => Ok(read_hurt(words)),
        Verb::Lost => Ok(Some(Action::Lost)),
        Verb::Open => Ok(Some(Action::Open)),
        Verb::Pause => Ok(Some(Action::Pause)),
        Verb::Start => Ok(Some(Action::Start)),
        Verb::End => Ok(Some(Action::End)),
        _ => Ok(None),
    }
}

fn read_put(alloc: Global, words: &mut Words) -> Result<Option<Action>, NoMemory>
    ensures { IfOk result (λ read. MatchOption read
        (IsNoAction verbs.Put words.old) (TakesAction verbs.Put words.old words.new)) }
{
    match read_item(alloc, words)? {
        Some(item) => Ok(Some(Action::Put { item })),
        None => Ok(None),
    }
}

fn read_put_last(alloc: Global, words: &mut Words) -> Result<Option<Action>, NoMemory>
    ensures { IfOk result (λ read. MatchOption read
        (IsNoAction verbs.Last words.old) (TakesAction verbs.Last words.old words.new)) }
{
    match read_item(alloc, words)? {
        Some(item) => Ok(Some(Action::PutLast { item })),
        None => Ok(None),
    }
}

/// The type and the payload of an item.
fn read_item(alloc: Global, words: &mut Words) -> Result<Option<Item>, NoMemory>
    ensures { IfOk result (λ read.
        MatchOption read (IsNoItem words.old) (TakesItem words.old words.new)) }
{
    let Some(word) = words.next_word() else {
        return Ok(None);
    };
    let Some(ptype) = read_short_number(word) else {
        return Ok(None);
    };
    let Some(word) = words.next_word() else {
        return Ok(None);
    };
    let Some(payload) = read_payload(alloc, word)? else {
        return Ok(None);
    };
    Ok(Some(Item { ptype, payload }))
}

fn read_hear(words: &mut Words) -> Option<Action>
    ensures { MatchOption result
        (IsNoAction verbs.Hear words.old) (TakesAction verbs.Hear words.old words.new) }
{
    let which = Which::read(words.next_word()?)?;
    Some(Action::Hear { which })
}

fn read_hurt(words: &mut Words) -> Option<Action>
    ensures { MatchOption result
        (IsNoAction verbs.Hurt words.old) (TakesAction verbs.Hurt words.old words.new) }
{
    let which = Which::read(words.next_word()?)?;
    let place = read_number(words.next_word()?)?;
    Some(Action::Hurt { which, place })
}
