//! Reading a line of a script whose ends carry streams.

ghost use Rattle.std.specs.Prelude.{◌≡◌, ◌≢◌, ◌∷◌, ◌↔◌, ℕ, List, IfOk, IfSome, IfNone, IsTrue, MatchOption, decimal};
ghost use Rattle.lab_script.specs.declared.stream_command.StreamCommand.{StreamCommand};
ghost use Rattle.lab_script.specs.declared.verb.Verb.TheVariants as verbs;
ghost use Rattle.lab_script.specs.StreamCommand.{IsBesideStreams, IsNoStreamPut, IsSize, IsStreamLine, IsWritten, SaysStream};
ghost use Rattle.lab_script.specs.StreamGrammar.{BeginsOwn, IsNoEnd, IsNoOperands, IsNoOwn, IsOwn, TakesOperands};
ghost use Rattle.lab_script.specs.Verb.{verb_text};
ghost use Rattle.lab_script.specs.Words.{hex_text};

use crate::command::{Action, Command};
use crate::grammar::parse;
use crate::hexadecimal::read_payload;
use crate::pieces::Words;
use crate::stream_command::{StreamAction, StreamCommand};
use crate::verb::Verb;
use crate::word::{read_number, read_short_number, read_side};
use chan_values::{Bytes, NoMemory};
use std::alloc::Global;

/// The payload type of an item that carries bytes of the streams.
const STREAM_BYTES: u32 = 1;

/// The most bytes that are written to a stream at once.
const MAX_WRITE: usize = 32_768;

/// The most bytes that the streams give out for one item.
const MAX_PUSH: usize = 1_024;

/// The most bytes that are taken of a stream at once.
const MAX_TAKE: usize = 65_536;

/// The command that a line says where the ends carry streams. `None`: the line is out of the grammar.
pub fn parse_stream(alloc: Global, line: &[u8]) -> Result<Option<StreamCommand>, NoMemory>
    ensures found { IfOk result (λ read. IfSome read (SaysStream line.now)) }
    ensures none { IfOk result (λ read. IfNone read (¬ IsStreamLine line.now)) }
{
    let Some(command) = parse(alloc, line)? else {
        return parse_own(alloc, line);
    };
    if is_beside_streams(&command) {
        Ok(Some(StreamCommand::Plain(command)))
    } else {
        Ok(None)
    }
}

/// Whether a command puts in no bytes of the streams.
fn is_beside_streams(command: &Command) -> bool
    ensures { IsTrue result ↔ IsBesideStreams command.now }
{
    match command {
        Command::At { .. } | Command::Settle => true,
        Command::On(_, action) => is_no_stream_put(action),
    }
}

fn is_no_stream_put(action: &Action) -> bool
    ensures { IsTrue result ↔ IsNoStreamPut action.now }
{
    match action {
        Action::Put { item } => item.ptype != STREAM_BYTES,
        Action::PutLast { item } => item.ptype != STREAM_BYTES,
        _ => true,
    }
}

/// The command of the streams' own verbs that a line says.
fn parse_own(alloc: Global, line: &[u8]) -> Result<Option<StreamCommand>, NoMemory>
    ensures found { IfOk result (λ read. IfSome read (SaysStream line.now)) }
    ensures none { IfOk result (λ read. IfNone read
        ((command : StreamCommand) → IsOwn command → ¬ SaysStream line.now command)) }
{
    let mut words = Words::new(line);
    let Some(command) = read_own(alloc, &mut words)? else {
        return Ok(None);
    };
    if words.is_empty() {
        Ok(Some(command))
    } else {
        Ok(None)
    }
}

/// The command that the next words say.
fn read_own(alloc: Global, words: &mut Words) -> Result<Option<StreamCommand>, NoMemory>
    ensures { IfOk result (λ read.
        MatchOption read (IsNoOwn words.old) (BeginsOwn words.old words.new)) }
{
    let Some(word) = words.next_word() else {
        return Ok(None);
    };
    let Some(verb) = Verb::read(word) else {
        return Ok(None);
    };
    match verb {
        Verb::StreamOpen => Ok(Some(StreamCommand::Open)),
        _ => read_on(alloc, verb, words),
    }
}

/// The end, and what its streams do, behind a verb of one end.
fn read_on(alloc: Global, verb: Verb, words: &mut Words) -> Result<Option<StreamCommand>, NoMemory>
    ensures { IfOk result (λ read. MatchOption read (IsNoEnd verb words.old)
        (BeginsOwn (verb_text verb ∷ words.old) words.new)) }
{
    let Some(word) = words.next_word() else {
        return Ok(None);
    };
    let Some(side) = read_side(word) else {
        return Ok(None);
    };
    match read_action(alloc, verb, words)? {
        Some(action) => Ok(Some(StreamCommand::On(side, action))),
        None => Ok(None),
    }
}

/// What the streams of an end do, by the verb and the words behind the end.
fn read_action(
    alloc: Global,
    verb: Verb,
    words: &mut Words,
) -> Result<Option<StreamAction>, NoMemory>
    ensures { IfOk result (λ read. MatchOption read
        (IsNoOperands verb words.old) (TakesOperands verb words.old words.new)) }
{
    match verb {
        Verb::StreamWrite => read_write(alloc, words),
        Verb::StreamClose => Ok(read_close(words)),
        Verb::StreamPush => Ok(read_push(words)),
        Verb::StreamTake => Ok(read_take(words)),
        _ => Ok(None),
    }
}

fn read_write(alloc: Global, words: &mut Words) -> Result<Option<StreamAction>, NoMemory>
    ensures { IfOk result (λ read. MatchOption read (IsNoOperands verbs.StreamWrite words.old)
        (TakesOperands verbs.StreamWrite words.old words.new)) }
{
    let Some(word) = words.next_word() else {
        return Ok(None);
    };
    let Some(sid) = read_short_number(word) else {
        return Ok(None);
    };
    let Some(word) = words.next_word() else {
        return Ok(None);
    };
    let Some(bytes) = read_written(alloc, word)? else {
        return Ok(None);
    };
    Ok(Some(StreamAction::Write { sid, bytes }))
}

fn read_close(words: &mut Words) -> Option<StreamAction>
    ensures { MatchOption result (IsNoOperands verbs.StreamClose words.old)
        (TakesOperands verbs.StreamClose words.old words.new) }
{
    let sid = read_short_number(words.next_word()?)?;
    Some(StreamAction::Close { sid })
}

fn read_push(words: &mut Words) -> Option<StreamAction>
    ensures { MatchOption result (IsNoOperands verbs.StreamPush words.old)
        (TakesOperands verbs.StreamPush words.old words.new) }
{
    let most = read_size(words.next_word()?, MAX_PUSH)?;
    Some(StreamAction::Push { most })
}

fn read_take(words: &mut Words) -> Option<StreamAction>
    ensures { MatchOption result (IsNoOperands verbs.StreamTake words.old)
        (TakesOperands verbs.StreamTake words.old words.new) }
{
    let sid = read_short_number(words.next_word()?)?;
    let most = read_size(words.next_word()?, MAX_TAKE)?;
    Some(StreamAction::Take { sid, most })
}

/// The bytes that a word spells, where they may be written to a stream at once.
fn read_written(alloc: Global, word: &[u8]) -> Result<Option<Bytes>, NoMemory>
    ensures found { IfOk result (λ read. IfSome read (λ bytes.
        IsWritten bytes × (hex_text bytes ≡ word.now))) }
    ensures none { IfOk result (λ read. IfNone read
        ((bytes : List ℕ) → IsWritten bytes → hex_text bytes ≢ word.now)) }
{
    let Some(bytes) = read_payload(alloc, word)? else {
        return Ok(None);
    };
    let count = bytes.as_slice().len();
    if count == 0 || count > MAX_WRITE {
        return Ok(None);
    }
    Ok(Some(bytes))
}

/// The number of bytes, 1 to this limit, that a word spells.
fn read_size(word: &[u8], limit: usize) -> Option<usize>
    ensures found { IfSome result (λ most. IsSize limit most × (decimal most ≡ word.now)) }
    ensures none { IfNone result ((most : ℕ) → IsSize limit most → decimal most ≢ word.now) }
{
    let most = read_number(word)? as usize;
    if most == 0 || most > limit {
        return None;
    }
    Some(most)
}
