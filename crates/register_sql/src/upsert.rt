//! A row is written.

ghost use Rattle.std.specs.Prelude.{◌≡◌, IsErrOf, OnErr, OnOk};
ghost use Rattle.sqlite.specs.Held.{state};
ghost use Rattle.register_sql.specs.Tables.{HasBoth};
ghost use Rattle.register_sql.specs.RawRows.{value_or_null};
ghost use Rattle.sqlite.specs.Values.{or_null};
ghost use Rattle.sqlite.specs.declared.types.Value.TheVariants.{Blob};
ghost use Rattle.register_sql.specs.Stores.{After, IsAtRest, IsSure, Puts, Stays, WasRefused, values_of};
ghost use Rattle.register_sql.specs.Texts.{upsert_text};
ghost use Rattle.sqlite.specs.State.{HasCleanDisk};

use crate::fault::{SqlFault, fault_of};
use crate::row::RawRow;
use chan_values::Bytes;
use sqlite::{Alter, Connection, params};

/// Puts a row in `sessions2` in the place of the one of its session, or adds it.
pub fn upsert_row<S: Alter>(store: &mut Connection<S>, row: &RawRow) -> Result<(), SqlFault>
    ensures sure { IsSure (state S.Store store.new) → IsSure (state S.Store store.old) }
    ensures puts { After HasBoth (state S.Store store.old) (state S.Store store.new)
        (OnOk result (Puts row.now (state S.Store store.old).now (state S.Store store.new).now)) }
    ensures rests { After HasBoth (state S.Store store.old) (state S.Store store.new)
        (IsAtRest (state S.Store store.new)) }
    ensures same { IsSure (state S.Store store.new) → IsAtRest (state S.Store store.old)
        → OnErr result (Stays (state S.Store store.old) (state S.Store store.new)) }
    ensures refused { HasCleanDisk (state S.Store store.new) → IsErrOf result SqlFault.Refused
        → WasRefused upsert_text (values_of row.now) (state S.Store store.old) (state S.Store store.new) }
{
    match store.execute(
        "INSERT OR REPLACE INTO sessions2 VALUES (?1, ?2, ?3, ?4, ?5, ?6, ?7, ?8)",
        params![
            row.session.as_str(),
            &row.ended,
            row.plugin.last.as_slice(),
            optional_slice(&row.plugin.prev),
            &row.plugin.opened,
            row.agent.last.as_slice(),
            optional_slice(&row.agent.prev),
            &row.agent.opened
        ],
    ) {
        Ok(_) => Ok(()),
        Err(error) => Err(fault_of(error)),
    }
}

fn optional_slice(bytes: &Option<Bytes>) -> Option<&[u8]>
    ensures { or_null (λ slice. Blob slice.now) result ≡ value_or_null bytes.now }
{
    match bytes {
        Some(bytes) => Some(bytes.as_slice()),
        None => None,
    }
}
