//! The chain in a file that is opened again.

use super::chain::{begin, go_on, is_closed};
use crate::SqliteKeeper;
use sqlite::{Alter, Connection, Error};
use std::alloc::Global;
use std::process::Abort;
use std::test::Fail;

#[derive(Clone, Copy)]
enum Part {
    First,
    Second,
    End,
}

// A part of the chain. The store of the first is dropped, as when its process is killed.
fn make<S: Alter + Drop>(
    rt: &impl Abort,
    alloc: Global,
    store: Connection<S>,
    part: Part,
) -> Option<Connection<S>> {
    let keeper = SqliteKeeper::over(Some(store));
    match part {
        Part::First => {
            let _ = begin(rt, alloc, keeper);
            None
        }
        Part::Second => go_on(rt, alloc, keeper).into_store(),
        Part::End => is_closed(rt, alloc, keeper).into_store(),
    }
}

fn make_in_file(rt: &impl Abort, files: &HostRuntime, part: Part) -> Result<(), Error> {
    let store = Connection::open(files, "register.db")?;
    match make(rt, files.alloc(), store, part) {
        Some(store) => store.close(),
        None => Ok(()),
    }
}

#[test]
fn the_chain_goes_on_when_its_file_is_opened_again(rt: HostRuntime) -> Result<(), Fail> {
    for part in [Part::First, Part::Second, Part::End] {
        make_in_file(&rt, &rt, part)?;
    }
    Ok(())
}
