//! Rows as a store keeps them: tokens as 16 bytes, and flags and counts as integers.

ghost use Rattle.std.specs.Prelude.{◌≡◌, ◌≤◌, Some, pos, if◌then◌else◌, option_map, IfOk, IfSome};
ghost use Rattle.session_register.specs.Rows.{IsKept, IsOldKept, IsRow, IsToken, greatest, upgraded};
ghost use Rattle.session_register.specs.Stored.{read_chain, read_name, read_old_chain, read_old_row, read_opened, read_prev, read_row, read_token};

use crate::name::SessionName;
use crate::row::{Chain, OldChain, OldRow, Row, upgrade};
use crate::token::{GREATEST_COUNT, Token};
use chan_values::{Bytes, NoMemory, Text};
use register_sql::{RawChain, RawOldChain, RawOldRow, RawRow};
use std::alloc::Global;

/// The row that a stored one says, where each of its columns is as it should be.
pub(crate) fn row_from(raw: &RawRow) -> Option<Row>
    ensures value { result ≡ read_row raw.now }
    ensures kept { IfSome result IsRow }
{
    let session = name_from(&raw.session)?;
    let plugin = chain_from(&raw.plugin)?;
    let agent = chain_from(&raw.agent)?;
    Some(Row {
        session,
        ended: raw.ended != 0,
        plugin,
        agent,
    })
}

/// The row that a stored one without counts of openings says, upgraded.
pub(crate) fn upgraded_from(raw: &RawOldRow) -> Option<Row>
    ensures value { result ≡ option_map upgraded (read_old_row raw.now) }
    ensures kept { IfSome result IsRow }
{
    let row = old_row_from(raw)?;
    Some(upgrade(row))
}

fn old_row_from(raw: &RawOldRow) -> Option<OldRow>
    ensures value { result ≡ read_old_row raw.now }
    ensures kept { IfSome result (λ row. IsOldKept row.plugin × IsOldKept row.agent) }
{
    let session = name_from(&raw.session)?;
    let plugin = old_chain_from(&raw.plugin)?;
    let agent = old_chain_from(&raw.agent)?;
    Some(OldRow {
        session,
        ended: raw.ended != 0,
        plugin,
        agent,
    })
}

fn name_from(text: &Text) -> Option<SessionName>
    ensures { result ≡ read_name text.now }
{
    SessionName::new(text.as_str().as_bytes())
}

fn chain_from(raw: &RawChain) -> Option<Chain>
    ensures value { result ≡ read_chain raw.now }
    ensures kept { IfSome result IsKept }
{
    let last = token_from(&raw.last)?;
    let prev = prev_from(&raw.prev)?;
    let opened = opened_from(raw.opened)?;
    Some(Chain { last, prev, opened })
}

fn old_chain_from(raw: &RawOldChain) -> Option<OldChain>
    ensures value { result ≡ read_old_chain raw.now }
    ensures kept { IfSome result IsOldKept }
{
    let last = token_from(&raw.last)?;
    let prev = prev_from(&raw.prev)?;
    Some(OldChain { last, prev })
}

fn prev_from(raw: &Option<Bytes>) -> Option<Option<Token>>
    ensures value { result ≡ read_prev raw.now }
    ensures kept { IfSome result (λ prev. IfSome prev IsToken) }
{
    match raw {
        None => Some(None),
        Some(bytes) => match token_from(bytes) {
            Some(token) => Some(Some(token)),
            None => None,
        },
    }
}

fn opened_from(opened: i64) -> Option<u64>
    ensures value { result ≡ read_opened opened }
    ensures kept { IfSome result (λ count. count ≤ greatest) }
{
    u64::try_from(opened).ok()
}

fn token_from(bytes: &Bytes) -> Option<Token>
    ensures value { result ≡ read_token bytes.now }
    ensures kept { IfSome result IsToken }
{
    let token = Token::from_bytes(bytes.as_slice().as_array()?);
    if (1..=GREATEST_COUNT).contains(&token.count) {
        Some(token)
    } else {
        None
    }
}

/// The row as it is stored.
pub(crate) fn raw_row(alloc: Global, row: &Row) -> Result<RawRow, NoMemory>
    requires { IsRow row.now }
    ensures session { IfOk result (λ raw. raw.session ≡ row.now.session) }
    ensures same { IfOk result (λ raw. read_row raw ≡ Some row.now) }
{
    Ok(RawRow {
        session: Text::new(String::from_str(alloc, row.session.as_str())?),
        ended: raw_ended(row.ended),
        plugin: raw_chain(alloc, &row.plugin)?,
        agent: raw_chain(alloc, &row.agent)?,
    })
}

fn raw_ended(ended: bool) -> i64
    ensures { result ≡ (if ended then pos 1 else pos 0) }
{
    if ended { 1 } else { 0 }
}

fn raw_chain(alloc: Global, chain: &Chain) -> Result<RawChain, NoMemory>
    requires { IsKept chain.now }
    ensures { IfOk result (λ raw. read_chain raw ≡ Some chain.now) }
{
    Ok(RawChain {
        last: raw_token(alloc, &chain.last)?,
        prev: raw_prev(alloc, &chain.prev)?,
        opened: raw_opened(chain.opened),
    })
}

fn raw_prev(alloc: Global, prev: &Option<Token>) -> Result<Option<Bytes>, NoMemory>
    requires { IfSome prev.now IsToken }
    ensures { IfOk result (λ raw. read_prev raw ≡ Some prev.now) }
{
    match prev {
        None => Ok(None),
        Some(token) => Ok(Some(raw_token(alloc, token)?)),
    }
}

fn raw_opened(opened: u64) -> i64
    requires { opened ≤ greatest }
    ensures { read_opened result ≡ Some opened }
{
    opened as i64
}

fn raw_token(alloc: Global, token: &Token) -> Result<Bytes, NoMemory>
    requires { IsToken token.now }
    ensures { IfOk result (λ bytes. read_token bytes ≡ Some token.now) }
{
    let bytes = token.to_bytes();
    Ok(Bytes::new(Vec::from_slice(alloc, &bytes)?))
}
