//! Stores in memory that have one of the two tables, and a row of it.

use sqlite::types::ValueRef;
use sqlite::{Connection, Error, MemStore};
use std::alloc::Global;

pub(crate) const OLD_TABLE: &str = "CREATE TABLE sessions (session TEXT NOT NULL PRIMARY KEY, \
     ended INTEGER NOT NULL, p_last BLOB NOT NULL, p_prev BLOB, \
     a_last BLOB NOT NULL, a_prev BLOB) STRICT";

pub(crate) const NEW_TABLE: &str = "CREATE TABLE sessions2 (session TEXT NOT NULL PRIMARY KEY, \
     ended INTEGER NOT NULL, p_last BLOB NOT NULL, p_prev BLOB, p_opened INTEGER NOT NULL, \
     a_last BLOB NOT NULL, a_prev BLOB, a_opened INTEGER NOT NULL) STRICT";

pub(crate) fn in_memory(
    alloc: Global,
    table: &str,
    row: &str,
    values: &[ValueRef<'_>],
) -> Result<Connection<MemStore>, Error> {
    let mut store = Connection::open_in_memory(alloc)?;
    store.execute(table, &[])?;
    store.execute(row, values)?;
    Ok(store)
}

pub(crate) fn count(
    store: &mut Connection<MemStore>,
    rows: &str,
    values: &[ValueRef<'_>],
) -> Result<i64, Error> {
    store.query_row(rows, values)?.get(0)
}
