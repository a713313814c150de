//! A keeper in a SQL store.

ghost use Rattle.std.specs.Prelude.{◌≡◌, ◌≤◌, true, false, None, Some, Err, [], IfOk, IfSome, IsErrOf, OnErr, OnOk};
ghost use Rattle.sqlite.specs.Steps.{over_memory};
ghost use Rattle.chan_io.specs.Faults.{Rises};
ghost use Rattle.session_register.specs.Kept.{AreSure, IsReady, SaysRow, rows_in, rows_told};
ghost use Rattle.session_register.specs.Rows.{Finds, IsRow, Puts, row_of};
ghost use Rattle.session_register.specs.Sessions.{HaveDifferentSessions};

use crate::keeper::Keeper;
use crate::name::SessionName;
use crate::row::Row;
use crate::sql_store::{fetch, save};
use chan_io::IoFault;
use chan_values::NoMemory;
use sqlite::{Alter, Connection, MemStore};
use std::alloc::Global;
use std::marker::Model;

/// The rows in the tables of a SQL store, or no store. Every call without a store fails.
#[derive(Drop)]
pub struct SqliteKeeper<S: Alter + Drop> {
    store: Option<Connection<S>>,
    faults: u64,
    tells: bool,
}

impl<S: Alter + Drop> Model for SqliteKeeper<S> {
    ghost use Rattle.std.specs.Prelude.{◌≡◌, true};
    ghost use Rattle.session_register.specs.Kept.{AreSure, IsReady, Kept, kept_code};

    ghost Value = { Kept S };

    ghost coded = { kept_code S.code };

    ghost view = { λ k. record { store = k.store; faults = k.faults; tells = k.tells } };

    ghost invariant = { λ k. k.tells ≡ true → AreSure S.Store × IsReady S.Store k.store };
}

impl<S: Alter + Drop> SqliteKeeper<S> {
    /// A keeper that tells nothing of its rows, as over a file.
    pub fn over(store: Option<Connection<S>>) -> SqliteKeeper<S>
        ensures { result ≡ record { store = store; faults = 0; tells = false } }
    {
        SqliteKeeper {
            store,
            faults: 0,
            tells: false,
        }
    }

    /// A keeper that tells the rows of its store, which is one in memory or as good.
    pub fn telling(store: Connection<S>) -> SqliteKeeper<S>
        requires sure { AreSure S.Store }
        requires ready { IsReady S.Store (Some store) }
        ensures { result ≡ record { store = Some store; faults = 0; tells = true } }
    {
        SqliteKeeper {
            store: Some(store),
            faults: 0,
            tells: true,
        }
    }

    /// The store, to be closed or looked at.
    pub fn into_store(self) -> Option<Connection<S>>
        ensures { result ≡ self.store }
    {
        self.store
    }
}

impl SqliteKeeper<MemStore> {
    /// A keeper in memory with no rows, which it tells.
    pub fn in_memory(alloc: Global) -> Result<SqliteKeeper<MemStore>, NoMemory>
        ensures { IfOk result (λ keeper. rows_told over_memory keeper ≡ Some []) }
    {
        Ok(SqliteKeeper::telling(Connection::open_in_memory(alloc)?))
    }
}

impl<S: Alter + Drop> Keeper for SqliteKeeper<S> {
    ghost rows = { rows_told S.Store };

    ghost faults = { λ k. k.faults };

    /// A stored row that is not as it should be is a failure, and so is a missing store.
    fn get(&mut self, alloc: Global, session: &SessionName) -> Result<Option<Row>, IoFault>
        ensures found { IfOk result
            (λ row. Finds (rows_told S.Store self.old) session.now row) }
        ensures said { self.old.tells ≡ true
            → IfOk result (SaysRow S.Store self.old.store session.now) }
        ensures kept { IfOk result (λ row. IfSome row IsRow) }
        ensures same { rows_told S.Store self.new ≡ rows_told S.Store self.old }
        ensures differ { IfSome (rows_told S.Store self.new) HaveDifferentSessions }
        ensures steady { OnOk result (self.new.faults ≡ self.old.faults) }
        ensures lacking { IsErrOf result IoFault.NoMemory → self.new.faults ≡ self.old.faults }
        ensures failed { IsErrOf result IoFault.Failed → Rises self.old.faults self.new.faults }
        ensures counted { self.old.faults ≤ self.new.faults }
        ensures no_store { self.old.store ≡ None → result ≡ Err IoFault.Failed }
    {
        match fetch_in(&mut self.store, alloc, session) {
            Err(IoFault::Failed) => {
                self.faults = self.faults.saturating_add(1);
                Err(IoFault::Failed)
            }
            found => found,
        }
    }

    fn put(&mut self, alloc: Global, row: Row) -> Result<(), IoFault>
        requires { IsRow row }
        ensures puts { OnOk result
            (Puts row (rows_told S.Store self.old) (rows_told S.Store self.new)) }
        ensures same { OnErr result (rows_told S.Store self.new ≡ rows_told S.Store self.old) }
        ensures differ { IfSome (rows_told S.Store self.new) HaveDifferentSessions }
        ensures steady { OnOk result (self.new.faults ≡ self.old.faults) }
        ensures lacking { IsErrOf result IoFault.NoMemory → self.new.faults ≡ self.old.faults }
        ensures failed { IsErrOf result IoFault.Failed → Rises self.old.faults self.new.faults }
        ensures counted { self.old.faults ≤ self.new.faults }
        ensures no_store { self.old.store ≡ None → result ≡ Err IoFault.Failed }
    {
        match save_in(&mut self.store, alloc, &row) {
            Err(IoFault::Failed) => {
                self.faults = self.faults.saturating_add(1);
                Err(IoFault::Failed)
            }
            put => put,
        }
    }

    fn faults(&self) -> u64 {
        self.faults
    }
}

fn fetch_in<S: Alter>(
    store: &mut Option<Connection<S>>,
    alloc: Global,
    session: &SessionName,
) -> Result<Option<Row>, IoFault>
    ensures ready { AreSure S.Store → IsReady S.Store store.old → IsReady S.Store store.new }
    ensures same { AreSure S.Store → IsReady S.Store store.old
        → rows_in S.Store store.new ≡ rows_in S.Store store.old }
    ensures differ { AreSure S.Store → IsReady S.Store store.old
        → HaveDifferentSessions (rows_in S.Store store.new) }
    ensures found { AreSure S.Store → IsReady S.Store store.old
        → IfOk result (λ row. row ≡ row_of (rows_in S.Store store.old) session.now) }
    ensures said { AreSure S.Store → IsReady S.Store store.old
        → IfOk result (SaysRow S.Store store.old session.now) }
    ensures kept { IfOk result (λ row. IfSome row IsRow) }
    ensures no_store { store.old ≡ None → result ≡ Err IoFault.Failed }
{
    match store {
        Some(store) => fetch(store, alloc, session),
        None => Err(IoFault::Failed),
    }
}

fn save_in<S: Alter>(
    store: &mut Option<Connection<S>>,
    alloc: Global,
    row: &Row,
) -> Result<(), IoFault>
    requires { IsRow row.now }
    ensures ready { AreSure S.Store → IsReady S.Store store.old → IsReady S.Store store.new }
    ensures puts { AreSure S.Store → IsReady S.Store store.old → OnOk result
        (Puts row.now (Some (rows_in S.Store store.old)) (Some (rows_in S.Store store.new))) }
    ensures same { AreSure S.Store → IsReady S.Store store.old
        → OnErr result (rows_in S.Store store.new ≡ rows_in S.Store store.old) }
    ensures differ { AreSure S.Store → IsReady S.Store store.old
        → HaveDifferentSessions (rows_in S.Store store.new) }
    ensures no_store { store.old ≡ None → result ≡ Err IoFault.Failed }
{
    match store {
        Some(store) => save(store, alloc, row),
        None => Err(IoFault::Failed),
    }
}
