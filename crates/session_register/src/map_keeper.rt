//! A keeper in memory.

ghost use Rattle.std.specs.Prelude.{◌≡◌, Some, []};

use crate::keeper::Keeper;
use crate::name::SessionName;
use crate::row::Row;
use chan_io::IoFault;
use std::alloc::Global;
use std::collections::BTreeMap;
use std::marker::Model;

/// The rows in an ordered map. Its count of faults is 0 for good.
#[derive(Drop)]
pub struct MapKeeper {
    rows: BTreeMap<SessionName, Row>,
}

impl Model for MapKeeper {
    ghost use Rattle.std.specs.Prelude.{List};
    ghost use Rattle.session_register.specs.declared.row.Row.{Row};
    ghost use Rattle.session_register.specs.MapRows.{AreNamed, IsRows, rows_in};
    ghost use Rattle.session_register.specs.Sessions.{HaveDifferentSessions};

    ghost Value = { List Row };

    ghost view = { λ k. rows_in k.rows.entries };

    ghost invariant = { λ k. AreNamed k.rows.entries × IsRows k.rows.entries
        × HaveDifferentSessions (rows_in k.rows.entries) };
}

impl MapKeeper {
    /// A keeper with no rows.
    pub fn new(alloc: Global) -> MapKeeper
        ensures { result ≡ [] }
    {
        MapKeeper {
            rows: BTreeMap::new(alloc),
        }
    }
}

impl Keeper for MapKeeper {
    ghost rows = { λ k. Some k };

    ghost faults = { λ _. 0 };

    fn get(&mut self, _alloc: Global, session: &SessionName) -> Result<Option<Row>, IoFault> {
        Ok(self.rows.get(session).copied())
    }

    fn put(&mut self, _alloc: Global, row: Row) -> Result<(), IoFault> {
        match self.rows.insert(row.session, row) {
            Ok(_) => Ok(()),
            Err(_) => Err(IoFault::NoMemory),
        }
    }

    fn faults(&self) -> u64 {
        0
    }
}
