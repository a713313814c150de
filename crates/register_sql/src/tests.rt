//! The statements over stores in memory: one that has an older row, and one with a table of its own.

use crate::{
    RawChain, RawOldChain, RawOldRow, RawRow, SqlFault, prepare, select_old, select_row, upsert_row,
};
use chan_values::{Bytes, Text};
use sqlite::{Connection, MemStore};
use std::alloc::Global;
use std::test::Fail;

const OLD_TABLE: &str = "CREATE TABLE sessions (session TEXT NOT NULL PRIMARY KEY, \
     ended INTEGER NOT NULL, p_last BLOB NOT NULL, p_prev BLOB, \
     a_last BLOB NOT NULL, a_prev BLOB) STRICT";

// The plugin's last token has count 3 and its token before count 2; the agent has one of count 1.
const OLD_ROW: &str = "INSERT INTO sessions VALUES ('s-1', 0, \
     x'0000000000000003000000000000000a', x'00000000000000020000000000000008', \
     x'00000000000000010000000000000005', NULL)";

const PLUGIN_LAST: &[u8] = &[0, 0, 0, 0, 0, 0, 0, 3, 0, 0, 0, 0, 0, 0, 0, 10];

const PLUGIN_PREV: &[u8] = &[0, 0, 0, 0, 0, 0, 0, 2, 0, 0, 0, 0, 0, 0, 0, 8];

const AGENT_LAST: &[u8] = &[0, 0, 0, 0, 0, 0, 0, 1, 0, 0, 0, 0, 0, 0, 0, 5];

// The plugin's last token has 15 bytes, and there is none before it.
const SHORT_ROW: &str = "INSERT INTO sessions VALUES ('s-1', 0, x'000000000000000300000000000000', \
     NULL, x'00000000000000010000000000000005', NULL)";

const SHORT_LAST: &[u8] = &[0, 0, 0, 0, 0, 0, 0, 3, 0, 0, 0, 0, 0, 0, 0];

// A table of the name with other columns, and a row whose flag is a text.
const OTHER_TABLE: &str = "CREATE TABLE sessions2 (session, ended, p_last, p_prev, p_opened, \
     a_last, a_prev, a_opened)";

const OTHER_ROW: &str =
    "INSERT INTO sessions2 VALUES ('s-1', 'no', x'00', NULL, 0, x'00', NULL, 0)";

// One step over a store, and what it has to find.
#[derive(Clone, Copy)]
enum Step<'a> {
    // A statement runs.
    Runs(&'a str),
    // The tables that are missing are made.
    Prepares,
    // The row with this count of the plugin's openings is put.
    Puts(i64),
    // It is refused.
    IsNotPut,
    // The session s-1 has this row.
    HasRow(i64),
    // This session has no row.
    HasNone(&'a str),
    // The query of the session s-1 is refused.
    IsRefused,
    // The session s-1 has the older row.
    HasOldRow,
    // The last token of its plugin has these bytes.
    HasOldLast(&'a [u8]),
    // This session has no older row.
    HasNoOld(&'a str),
}

fn text(alloc: Global, text: &str) -> Result<Text, Fail> {
    Ok(Text::new(String::from_str(alloc, text)?))
}

fn bytes(alloc: Global, bytes: &[u8]) -> Result<Bytes, Fail> {
    Ok(Bytes::new(Vec::from_slice(alloc, bytes)?))
}

fn is_some(bytes: &Option<Bytes>, wanted: &[u8]) -> bool {
    match bytes {
        Some(bytes) => bytes.as_slice() == wanted,
        None => false,
    }
}

fn is_old_plugin(chain: &RawOldChain) -> bool {
    chain.last.as_slice() == PLUGIN_LAST && is_some(&chain.prev, PLUGIN_PREV)
}

fn is_old_agent(chain: &RawOldChain) -> bool {
    chain.last.as_slice() == AGENT_LAST && chain.prev.is_none()
}

fn is_old_row(row: &RawOldRow) -> bool {
    row.session.as_str() == "s-1"
        && row.ended == 0
        && is_old_plugin(&row.plugin)
        && is_old_agent(&row.agent)
}

fn is_plugin(chain: &RawChain, opened: i64) -> bool {
    chain.last.as_slice() == PLUGIN_LAST
        && is_some(&chain.prev, PLUGIN_PREV)
        && chain.opened == opened
}

fn is_agent(chain: &RawChain) -> bool {
    chain.last.as_slice() == AGENT_LAST && chain.prev.is_none() && chain.opened == 0
}

fn is_row(row: &RawRow, opened: i64) -> bool {
    row.session.as_str() == "s-1"
        && row.ended == 1
        && is_plugin(&row.plugin, opened)
        && is_agent(&row.agent)
}

fn plugin(alloc: Global, opened: i64) -> Result<RawChain, Fail> {
    Ok(RawChain {
        last: bytes(alloc, PLUGIN_LAST)?,
        prev: Some(bytes(alloc, PLUGIN_PREV)?),
        opened,
    })
}

fn agent(alloc: Global) -> Result<RawChain, Fail> {
    Ok(RawChain {
        last: bytes(alloc, AGENT_LAST)?,
        prev: None,
        opened: 0,
    })
}

fn new_row(alloc: Global, opened: i64) -> Result<RawRow, Fail> {
    Ok(RawRow {
        session: text(alloc, "s-1")?,
        ended: 1,
        plugin: plugin(alloc, opened)?,
        agent: agent(alloc)?,
    })
}

fn runs(store: &mut Connection<MemStore>, statement: &str) -> bool {
    store.execute_batch(statement).is_ok()
}

fn prepares(store: &mut Connection<MemStore>) -> bool {
    prepare(store).is_ok()
}

fn puts(
    alloc: Global,
    store: &mut Connection<MemStore>,
    opened: i64,
) -> Result<Result<(), SqlFault>, Fail> {
    let row = new_row(alloc, opened)?;
    Ok(upsert_row(store, &row))
}

fn has_row(store: &mut Connection<MemStore>, session: &Text, opened: i64) -> bool {
    match select_row(store, session) {
        Ok(Some(row)) => is_row(&row, opened),
        _ => false,
    }
}

fn has_none(store: &mut Connection<MemStore>, session: &Text) -> bool {
    matches!(select_row(store, session), Ok(None))
}

fn is_refused(store: &mut Connection<MemStore>, session: &Text) -> bool {
    matches!(select_row(store, session), Err(SqlFault::Refused))
}

fn has_old_row(store: &mut Connection<MemStore>, session: &Text) -> bool {
    match select_old(store, session) {
        Ok(Some(row)) => is_old_row(&row),
        _ => false,
    }
}

fn has_old_last(store: &mut Connection<MemStore>, session: &Text, last: &[u8]) -> bool {
    match select_old(store, session) {
        Ok(Some(row)) => row.plugin.last.as_slice() == last,
        _ => false,
    }
}

fn has_no_old(store: &mut Connection<MemStore>, session: &Text) -> bool {
    matches!(select_old(store, session), Ok(None))
}

// Whether the step found what it has to.
fn holds(alloc: Global, store: &mut Connection<MemStore>, step: Step<'_>) -> Result<bool, Fail> {
    let session = text(alloc, "s-1")?;
    Ok(match step {
        Step::Runs(statement) => runs(store, statement),
        Step::Prepares => prepares(store),
        Step::Puts(opened) => puts(alloc, store, opened)?.is_ok(),
        Step::IsNotPut => matches!(puts(alloc, store, 0)?, Err(SqlFault::Refused)),
        Step::HasRow(opened) => has_row(store, &session, opened),
        Step::HasNone(session) => has_none(store, &text(alloc, session)?),
        Step::IsRefused => is_refused(store, &session),
        Step::HasOldRow => has_old_row(store, &session),
        Step::HasOldLast(last) => has_old_last(store, &session, last),
        Step::HasNoOld(session) => has_no_old(store, &text(alloc, session)?),
    })
}

// The place of the first step that did not hold, or how many steps there are.
fn held(alloc: Global, steps: &[Step<'_>]) -> Result<usize, Fail> {
    let mut store = Connection::open_in_memory(alloc)?;
    for (at, step) in steps.iter().enumerate() {
        if !holds(alloc, &mut store, *step)? {
            return Ok(at);
        }
    }
    Ok(steps.len())
}

#[test]
fn an_older_row_stays_beside_a_new_one(rt: HostRuntime) -> Result<(), Fail> {
    let steps = [
        Step::Runs(OLD_TABLE),
        Step::Runs(OLD_ROW),
        Step::Prepares,
        Step::HasNone("s-1"),
        Step::HasOldRow,
        Step::Puts(2),
        Step::HasRow(2),
        Step::Puts(5),
        Step::HasRow(5),
        Step::Prepares,
        Step::HasRow(5),
        Step::HasOldRow,
        Step::HasNone("s-2"),
        Step::HasNoOld("s-2"),
    ];
    assert_eq!(rt; held(rt.alloc(), &steps)?, steps.len());
    Ok(())
}

#[test]
fn the_bytes_of_a_token_are_not_judged(rt: HostRuntime) -> Result<(), Fail> {
    let steps = [
        Step::Runs(OLD_TABLE),
        Step::Runs(SHORT_ROW),
        Step::HasOldLast(SHORT_LAST),
    ];
    assert_eq!(rt; held(rt.alloc(), &steps)?, steps.len());
    Ok(())
}

#[test]
fn a_missing_table_and_a_wrong_type_are_refused(rt: HostRuntime) -> Result<(), Fail> {
    let steps = [
        Step::Runs(OLD_TABLE),
        Step::Runs(OLD_ROW),
        Step::IsRefused,
        Step::IsNotPut,
        Step::Runs(OTHER_TABLE),
        Step::Runs(OTHER_ROW),
        Step::IsRefused,
        Step::HasOldRow,
    ];
    assert_eq!(rt; held(rt.alloc(), &steps)?, steps.len());
    Ok(())
}
