//! The queries: the row of one session, from each table.

ghost use Rattle.std.specs.Prelude.{◌≡◌, [], ◌∷◌, map, IfOk, IsErrOf};
ghost use Rattle.std.specs.Option.{option_to_list};
ghost use Rattle.sqlite.specs.Held.{state};
ghost use Rattle.sqlite.specs.State.{HasCleanDisk, Shown};
ghost use Rattle.sqlite.specs.declared.types.Value.TheVariants.{Text as Words};
ghost use Rattle.register_sql.specs.Tables.{HasBoth};
ghost use Rattle.register_sql.specs.RawRows.{new_row_of, new_rows, old_row_of, old_rows, raw_old_row, raw_row};
ghost use Rattle.register_sql.specs.Stores.{After, IsSure, QueryWasRefused, Stays};
ghost use Rattle.register_sql.specs.Texts.{select_new_text, select_old_text};

use crate::columns::{old_row_from, row_from};
use crate::fault::{SqlFault, fault_of};
use crate::row::{RawOldRow, RawRow};
use chan_values::Text;
use sqlite::{Alter, Connection, Row, params};

/// The row of a session in `sessions2`, if there is one.
pub fn select_row<S: Alter>(
    store: &mut Connection<S>,
    session: &Text,
) -> Result<Option<RawRow>, SqlFault>
    ensures sure { IsSure (state S.Store store.new) → IsSure (state S.Store store.old) }
    ensures found { let old = state S.Store store.old in
        After HasBoth old (state S.Store store.new)
        (IfOk result (λ row. row ≡ new_row_of session.now (new_rows old.now))) }
    ensures same { After HasBoth (state S.Store store.old) (state S.Store store.new)
        (Stays (state S.Store store.old) (state S.Store store.new)) }
    ensures refused { HasCleanDisk (state S.Store store.new) → IsErrOf result SqlFault.Refused
        → QueryWasRefused select_new_text (Words session.now ∷ [])
        (state S.Store store.old) (state S.Store store.new) }
{
    let found = ask_new(store, session.as_str())?;
    match found.as_slice().first() {
        None => Ok(None),
        Some(row) => match row_from(row) {
            Ok(row) => Ok(Some(row)),
            Err(error) => Err(fault_of(error)),
        },
    }
}

/// The row of a session in `sessions`, if there is one.
pub fn select_old<S: Alter>(
    store: &mut Connection<S>,
    session: &Text,
) -> Result<Option<RawOldRow>, SqlFault>
    ensures sure { IsSure (state S.Store store.new) → IsSure (state S.Store store.old) }
    ensures found { let old = state S.Store store.old in
        After HasBoth old (state S.Store store.new)
        (IfOk result (λ row. row ≡ old_row_of session.now (old_rows old.now))) }
    ensures same { After HasBoth (state S.Store store.old) (state S.Store store.new)
        (Stays (state S.Store store.old) (state S.Store store.new)) }
    ensures refused { HasCleanDisk (state S.Store store.new) → IsErrOf result SqlFault.Refused
        → QueryWasRefused select_old_text (Words session.now ∷ [])
        (state S.Store store.old) (state S.Store store.new) }
{
    let found = ask_old(store, session.as_str())?;
    match found.as_slice().first() {
        None => Ok(None),
        Some(row) => match old_row_from(row) {
            Ok(row) => Ok(Some(row)),
            Err(error) => Err(fault_of(error)),
        },
    }
}

fn ask_new<S: Alter>(store: &mut Connection<S>, session: &str) -> Result<Vec<Row>, SqlFault>
    ensures sure { IsSure (state S.Store store.new) → IsSure (state S.Store store.old) }
    ensures shown { HasCleanDisk (state S.Store store.new)
        → IfOk result (λ rows. Shown select_new_text (Words session.now ∷ [])
        (state S.Store store.old) (state S.Store store.new) rows.items) }
    ensures found { let old = state S.Store store.old in
        After HasBoth old (state S.Store store.new)
        (IfOk result (λ rows. map raw_row rows.items
        ≡ option_to_list (new_row_of session.now (new_rows old.now)))) }
    ensures same { After HasBoth (state S.Store store.old) (state S.Store store.new)
        (Stays (state S.Store store.old) (state S.Store store.new)) }
    ensures refused { HasCleanDisk (state S.Store store.new) → IsErrOf result SqlFault.Refused
        → QueryWasRefused select_new_text (Words session.now ∷ [])
        (state S.Store store.old) (state S.Store store.new) }
{
    match store.query_all(
        "SELECT session, ended, p_last, p_prev, p_opened, a_last, a_prev, a_opened \
         FROM sessions2 WHERE session = ?1",
        params![session],
    ) {
        Ok(rows) => Ok(rows),
        Err(error) => Err(fault_of(error)),
    }
}

fn ask_old<S: Alter>(store: &mut Connection<S>, session: &str) -> Result<Vec<Row>, SqlFault>
    ensures sure { IsSure (state S.Store store.new) → IsSure (state S.Store store.old) }
    ensures shown { HasCleanDisk (state S.Store store.new)
        → IfOk result (λ rows. Shown select_old_text (Words session.now ∷ [])
        (state S.Store store.old) (state S.Store store.new) rows.items) }
    ensures found { let old = state S.Store store.old in
        After HasBoth old (state S.Store store.new)
        (IfOk result (λ rows. map raw_old_row rows.items
        ≡ option_to_list (old_row_of session.now (old_rows old.now)))) }
    ensures same { After HasBoth (state S.Store store.old) (state S.Store store.new)
        (Stays (state S.Store store.old) (state S.Store store.new)) }
    ensures refused { HasCleanDisk (state S.Store store.new) → IsErrOf result SqlFault.Refused
        → QueryWasRefused select_old_text (Words session.now ∷ [])
        (state S.Store store.old) (state S.Store store.new) }
{
    match store.query_all(
        "SELECT session, ended, p_last, p_prev, a_last, a_prev \
         FROM sessions WHERE session = ?1",
        params![session],
    ) {
        Ok(rows) => Ok(rows),
        Err(error) => Err(fault_of(error)),
    }
}
