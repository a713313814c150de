//! The columns of a shown row as a stored row. A column that is not of its type is an error.

ghost use Rattle.std.specs.Prelude.{◌≡◌, ◌<◌, IfErr, IfOk};
ghost use Rattle.sqlite.specs.Edit.{id_in};
ghost use Rattle.sqlite.specs.Order.{bytes, column};
ghost use Rattle.register_sql.specs.RawRows.{blob_in, raw_chain, raw_old_chain, raw_old_row, raw_row};
ghost use Rattle.register_sql.specs.Stores.{IsMistyped};

use crate::row::{RawChain, RawOldChain, RawOldRow, RawRow};
use chan_values::{Bytes, Text};
use sqlite::{Error, Row};

/// A row that the query of `sessions2` showed.
pub(crate) fn row_from(shown: &Row) -> Result<RawRow, Error>
    ensures ok { IfOk result (λ row. row ≡ raw_row shown.now) }
    ensures err { IfErr result (IsMistyped shown.now) }
{
    Ok(RawRow {
        session: text_at(shown, 0)?,
        ended: number_at(shown, 1)?,
        plugin: chain_from(shown, 2)?,
        agent: chain_from(shown, 5)?,
    })
}

/// A row that the query of `sessions` showed.
pub(crate) fn old_row_from(shown: &Row) -> Result<RawOldRow, Error>
    ensures ok { IfOk result (λ row. row ≡ raw_old_row shown.now) }
    ensures err { IfErr result (IsMistyped shown.now) }
{
    Ok(RawOldRow {
        session: text_at(shown, 0)?,
        ended: number_at(shown, 1)?,
        plugin: old_chain_from(shown, 2)?,
        agent: old_chain_from(shown, 4)?,
    })
}

fn chain_from(shown: &Row, at: usize) -> Result<RawChain, Error>
    requires { at < 8 }
    ensures ok { IfOk result (λ chain. chain ≡ raw_chain shown.now at) }
    ensures err { IfErr result (IsMistyped shown.now) }
{
    Ok(RawChain {
        last: bytes_at(shown, at)?,
        prev: optional_bytes_at(shown, at + 1)?,
        opened: number_at(shown, at + 2)?,
    })
}

fn old_chain_from(shown: &Row, at: usize) -> Result<RawOldChain, Error>
    requires { at < 8 }
    ensures ok { IfOk result (λ chain. chain ≡ raw_old_chain shown.now at) }
    ensures err { IfErr result (IsMistyped shown.now) }
{
    Ok(RawOldChain {
        last: bytes_at(shown, at)?,
        prev: optional_bytes_at(shown, at + 1)?,
    })
}

fn text_at(shown: &Row, at: usize) -> Result<Text, Error>
    ensures ok { IfOk result (λ text. text ≡ bytes (column shown.now at)) }
    ensures err { IfErr result (IsMistyped shown.now) }
{
    let text: String = shown.get(at)?;
    Ok(Text::new(text))
}

fn number_at(shown: &Row, at: usize) -> Result<i64, Error>
    ensures ok { IfOk result (λ number. number ≡ id_in (column shown.now at)) }
    ensures err { IfErr result (IsMistyped shown.now) }
{
    shown.get(at)
}

fn bytes_at(shown: &Row, at: usize) -> Result<Bytes, Error>
    ensures ok { IfOk result (λ blob. blob ≡ bytes (column shown.now at)) }
    ensures err { IfErr result (IsMistyped shown.now) }
{
    let blob: Vec<u8> = shown.get(at)?;
    Ok(Bytes::new(blob))
}

fn optional_bytes_at(shown: &Row, at: usize) -> Result<Option<Bytes>, Error>
    ensures ok { IfOk result (λ blob. blob ≡ blob_in (column shown.now at)) }
    ensures err { IfErr result (IsMistyped shown.now) }
{
    let blob: Option<Vec<u8>> = shown.get(at)?;
    match blob {
        Some(blob) => Ok(Some(Bytes::new(blob))),
        None => Ok(None),
    }
}
