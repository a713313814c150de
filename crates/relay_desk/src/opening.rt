//! Who is let in: the first message of a connection, judged.

ghost use Rattle.std.specs.Prelude.{◌≡◌, IfOk, length, string_bytes, if◌then◌else◌};
ghost use Rattle.std.specs.Int.{from_be_bytes, w64};
ghost use Rattle.chan_io.specs.declared.got.Got.TheVariants as Got;
ghost use Rattle.turn_lock.specs.Seats.{IsSeatOf};
ghost use Rattle.session_run.specs.Adds.{AddsCalls};
ghost use Rattle.session_register.specs.Tokens.{number_at, token_digits};
ghost use Rattle.relay_desk.specs.Admissions.{Admission, Answers, AnswersOpen, MayAdmit, MayAsk, admission_calls};
ghost use Rattle.relay_desk.specs.Openings.{Judges, Names, accepting, is_named};

use crate::admission::Admit;
use crate::desk::Desk;
use crate::desk_seat::{draw, open};
use chan_io::{Entropy, Got, IoFault};
use chan_values::{Bytes, NoMemory, Text};
use json_bodies::{Opened, Opening};
use json_members::BodyFault;
use session_register::{Keeper, Open, SessionName, Token, TokenValue};
use std::alloc::Global;
use std::sync::Wait;
use turn_lock::{Seat, TurnLock};

/// The longest text that is read as an opening, in bytes.
pub const MAX_OPENING: usize = 4_096;

/// Judges the first message of a connection: it has to be the opening of one of these sessions with a
/// token that the register takes.
pub fn admit<R: Wait, K: Keeper + Drop, E: Entropy + Drop>(
    rt: &R,
    alloc: Global,
    desk: &TurnLock<Desk<K, E>>,
    seat: &mut Seat<Desk<K, E>>,
    first: &Got,
    names: &[SessionName],
) -> Admit
    requires { IsSeatOf desk.now seat.old }
    ensures { (admission : Admission) × record {
      may : MayAdmit first.now names.now admission;
      calls : AddsCalls seat.old (admission_calls admission) seat.new;
      answer : Answers admission result;
    } }
{
    match judged(alloc, first, names) {
        Ok(Some(value)) => ask(rt, alloc, desk, seat, &value),
        Ok(None) => Admit::Refused(false),
        Err(NoMemory) => Admit::NoMemory,
    }
}

/// Asks the register for an opening with this value, and a drawn number.
fn ask<R: Wait, K: Keeper + Drop, E: Entropy + Drop>(
    rt: &R,
    alloc: Global,
    desk: &TurnLock<Desk<K, E>>,
    seat: &mut Seat<Desk<K, E>>,
    value: &TokenValue,
) -> Admit
    requires { IsSeatOf desk.now seat.old }
    ensures { (admission : Admission) × record {
      may : MayAsk value.now admission;
      calls : AddsCalls seat.old (admission_calls admission) seat.new;
      answer : Answers admission result;
    } }
{
    let drawn = match draw(rt, desk, seat) {
        Ok(drawn) => drawn,
        Err(_fault) => return Admit::Entropy,
    };
    let fresh = fresh_of(&drawn);
    match open(
        rt,
        desk,
        seat,
        value.session,
        value.role,
        value.token,
        fresh,
    ) {
        Ok(answer) => answer_open(alloc, value, answer),
        Err(IoFault::Failed) => Admit::Store,
        Err(IoFault::NoMemory) => Admit::NoMemory,
    }
}

/// What the register's answer comes to.
fn answer_open(alloc: Global, value: &TokenValue, answer: Open) -> Admit
    ensures { AnswersOpen value.now answer result }
{
    match answer {
        Open::Successor(token) => accept(alloc, value, token),
        Open::Same(token) => accept(alloc, value, token),
        Open::Ended => Admit::Refused(true),
        Open::NoSession => Admit::Refused(false),
        Open::BadToken => Admit::Refused(false),
        Open::Spent => Admit::Refused(false),
    }
}

/// Lets a connection in that goes on with this token.
fn accept(alloc: Global, value: &TokenValue, token: Token) -> Admit
    ensures { AnswersOpen value.now (Open.Successor token) result }
{
    match accepting(alloc, token) {
        Ok(reply) => Admit::Accepted {
            session: value.session,
            role: value.role,
            reply: Bytes::new(reply),
        },
        Err(NoMemory) => Admit::NoMemory,
    }
}

/// The reply to an opening that is accepted.
fn accepting(alloc: Global, token: Token) -> Result<Vec<u8>, NoMemory>
    ensures { IfOk result (λ reply. reply.items ≡ accepting token) }
{
    let opened = Opened {
        accepted: true,
        ended: false,
        resume: Text::new(digits(alloc, token)?),
    };
    opened.write(alloc)
}

/// The digits of a token.
fn digits(alloc: Global, token: Token) -> Result<String, NoMemory>
    ensures { IfOk result (λ text. string_bytes text ≡ token_digits token) }
{
    let mut bytes = Vec::from_slice(alloc, &token.count.to_be_bytes())?;
    bytes.extend_from_slice(&token.random.to_be_bytes())?;
    Ok(hex::encode(alloc, bytes.as_slice())?)
}

/// The drawn number of the next token.
fn fresh_of(drawn: &[u8; 16]) -> u64
    ensures { result ≡ number_at 0 drawn.now }
{
    number(&drawn[..8])
}

/// The number of 8 bytes, big-endian.
fn number(bytes: &[u8]) -> u64
    requires { length bytes.now ≡ 8 }
    ensures { result ≡ from_be_bytes w64 bytes.now }
{
    let mut array = [0; 8];
    array.copy_from_slice(bytes);
    u64::from_be_bytes(array)
}

/// The value of the opening of one of these sessions, where the message is one.
fn judged(alloc: Global, first: &Got, names: &[SessionName]) -> Result<Option<TokenValue>, NoMemory>
    ensures { IfOk result (Judges first.now names.now) }
{
    match first {
        Got::Text(text) => judged_text(alloc, text.as_slice(), names),
        Got::Binary(_bytes) => Ok(None),
        Got::Gone => Ok(None),
    }
}

/// The value of the opening of one of these sessions, where the text is one.
fn judged_text(
    alloc: Global,
    text: &[u8],
    names: &[SessionName],
) -> Result<Option<TokenValue>, NoMemory>
    ensures { IfOk result (Judges (Got.Text text.now) names.now) }
{
    if text.len() > MAX_OPENING {
        return Ok(None);
    }
    match value_in(alloc, text) {
        Ok(Some(value)) => Ok(if_named(value, names)),
        Ok(None) => Ok(None),
        Err(NoMemory) => Err(NoMemory),
    }
}

/// The value, where its session is among these.
fn if_named(value: TokenValue, names: &[SessionName]) -> Option<TokenValue>
    ensures { result ≡ (if is_named names.now value.session then Some value else None) }
{
    if names.contains(&value.session) {
        Some(value)
    } else {
        None
    }
}

/// The value that an opening names, where the text is one.
fn value_in(alloc: Global, text: &[u8]) -> Result<Option<TokenValue>, NoMemory>
    ensures { IfOk result (Names text.now) }
{
    match Opening::read(alloc, text) {
        Ok(opening) => Ok(TokenValue::read(opening.token.as_str().as_bytes())),
        Err(BodyFault::NoMemory) => Err(NoMemory),
        Err(_) => Ok(None),
    }
}
