//! The row of one session in a SQL store, once its tables are there.

ghost use Rattle.std.specs.Prelude.{◌≡◌, None, Some, IfOk, IfSome, OnErr, OnOk};
ghost use Rattle.sqlite.specs.Held.{state};
ghost use Rattle.register_sql.specs.RawRows.{old_row_of, old_rows};
ghost use Rattle.register_sql.specs.Stores.{After, HasSameRows, IsAtRest, IsSure, LeavesRows, Stays};
ghost use Rattle.register_sql.specs.Tables.{HasBoth, HasSome};
ghost use Rattle.session_register.specs.Rows.{IsRow};
ghost use Rattle.session_register.specs.Stored.{PutsRow, read_at, read_both};

use crate::name::SessionName;
use crate::row::Row;
use crate::stored::{raw_row, row_from, upgraded_from};
use chan_io::IoFault;
use chan_values::Text;
use register_sql::{prepare, select_old, select_row, upsert_row};
use sqlite::{Alter, Connection};
use std::alloc::Global;

/// The row of a session. One that is stored as it should not be is a failure.
pub(crate) fn fetch<S: Alter>(
    store: &mut Connection<S>,
    alloc: Global,
    session: &SessionName,
) -> Result<Option<Row>, IoFault>
    ensures rests { After HasSome (state S.Store store.old) (state S.Store store.new)
        (LeavesRows (state S.Store store.old) (state S.Store store.new)) }
    ensures found { After HasSome (state S.Store store.old) (state S.Store store.new)
        (IfOk result (λ row. read_at session.now (state S.Store store.old).now ≡ Some row)) }
    ensures kept { IfOk result (λ row. IfSome row IsRow) }
{
    prepare(store)?;
    let name = Text::new(String::from_str(alloc, session.as_str())?);
    find(store, &name)
}

fn find<S: Alter>(store: &mut Connection<S>, name: &Text) -> Result<Option<Row>, IoFault>
    ensures sure { IsSure (state S.Store store.new) → IsSure (state S.Store store.old) }
    ensures same { After HasBoth (state S.Store store.old) (state S.Store store.new)
        (Stays (state S.Store store.old) (state S.Store store.new)) }
    ensures found { After HasBoth (state S.Store store.old) (state S.Store store.new)
        (IfOk result (λ row. read_at name.now (state S.Store store.old).now ≡ Some row)) }
    ensures kept { IfOk result (λ row. IfSome row IsRow) }
{
    match select_row(store, name)? {
        Some(raw) => match row_from(&raw) {
            Some(row) => Ok(Some(row)),
            None => Err(IoFault::Failed),
        },
        None => find_old(store, name),
    }
}

fn find_old<S: Alter>(store: &mut Connection<S>, name: &Text) -> Result<Option<Row>, IoFault>
    ensures sure { IsSure (state S.Store store.new) → IsSure (state S.Store store.old) }
    ensures same { After HasBoth (state S.Store store.old) (state S.Store store.new)
        (Stays (state S.Store store.old) (state S.Store store.new)) }
    ensures found { let old = state S.Store store.old in
        After HasBoth old (state S.Store store.new) (IfOk result (λ row.
        read_both None (old_row_of name.now (old_rows old.now)) ≡ Some row)) }
    ensures kept { IfOk result (λ row. IfSome row IsRow) }
{
    match select_old(store, name)? {
        Some(raw) => match upgraded_from(&raw) {
            Some(row) => Ok(Some(row)),
            None => Err(IoFault::Failed),
        },
        None => Ok(None),
    }
}

/// Puts a row in the place of the one of its session, or adds it.
pub(crate) fn save<S: Alter>(
    store: &mut Connection<S>,
    alloc: Global,
    row: &Row,
) -> Result<(), IoFault>
    requires { IsRow row.now }
    ensures rests { After HasSome (state S.Store store.old) (state S.Store store.new)
        (IsAtRest (state S.Store store.new) × HasSome (state S.Store store.new).now.schema) }
    ensures puts { After HasSome (state S.Store store.old) (state S.Store store.new)
        (OnOk result (PutsRow row.now (state S.Store store.old).now (state S.Store store.new).now)) }
    ensures same { After HasSome (state S.Store store.old) (state S.Store store.new)
        (OnErr result (HasSameRows (state S.Store store.old).now (state S.Store store.new).now)) }
{
    prepare(store)?;
    let raw = raw_row(alloc, row)?;
    upsert_row(store, &raw)?;
    Ok(())
}
