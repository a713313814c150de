//! Stored rows that are not as they should be, of each wrong form; and no store at all.

use super::tables::{NEW_TABLE, OLD_TABLE, count, in_memory};
use super::{Call, are_answered, token};
use crate::{IoFault, Keeper, SqliteKeeper};
use chan_values::Side;
use sqlite::types::ValueRef;
use sqlite::{Connection, Error, MemStore, params};
use std::alloc::Global;
use std::process::Abort;
use std::test::Fail;

// Each of the five calls fails, and is counted.
fn fails<K: Keeper + Drop>(rt: &impl Abort, alloc: Global, keeper: K) -> K {
    let failed = IoFault::Failed;
    let calls = [
        Call::Create(Err(failed)),
        Call::Open(Side::Plugin, token(1, 5), 3, Err(failed)),
        Call::End(Err(failed)),
        Call::Ended(Err(failed)),
        Call::Counts(Err(failed)),
    ];
    let keeper = are_answered(rt, alloc, keeper, b"s-1", &calls);
    assert_eq!(rt; keeper.faults(), 5);
    keeper
}

#[test]
fn every_call_without_a_store_fails(rt: HostRuntime) {
    let keeper: SqliteKeeper<MemStore> = SqliteKeeper::over(None);
    let _ = fails(&rt, rt.alloc(), keeper);
}

// A keeper over this store fails. The store comes back.
fn failed(rt: &impl Abort, alloc: Global, store: Connection<MemStore>) -> Connection<MemStore> {
    let keeper = fails(rt, alloc, SqliteKeeper::over(Some(store)));
    keeper.into_store().expect(rt, "there is a store")
}

// A keeper over a store fails, and leaves the one row that the query counts.
fn fails_over(
    rt: &impl Abort,
    alloc: Global,
    mut store: Connection<MemStore>,
    rows: &str,
    values: &[ValueRef<'_>],
) -> Result<(), Error> {
    assert_eq!(rt; count(&mut store, rows, values)?, 1);
    let mut store = failed(rt, alloc, store);
    assert_eq!(rt; count(&mut store, rows, values)?, 1);
    Ok(())
}

const GOOD_TOKEN: &[u8] = b"\0\0\0\0\0\0\0\x01\0\0\0\0\0\0\0\x05";

// A token of 15 bytes and of 17, of count 0 and of count 2^63; in the last place, a token before.
const BAD_TOKENS: [&[u8]; 4] = [
    b"\0\0\0\0\0\0\0\x01\0\0\0\0\0\0\0",
    b"\0\0\0\0\0\0\0\x01\0\0\0\0\0\0\0\x05\0",
    b"\0\0\0\0\0\0\0\0\0\0\0\0\0\0\0\x05",
    b"\x80\0\0\0\0\0\0\0\0\0\0\0\0\0\0\x05",
];

fn old_row_fails(rt: &impl Abort, alloc: Global, tokens: &[ValueRef<'_>]) -> Result<(), Error> {
    let row = "INSERT INTO sessions VALUES ('s-1', 0, ?1, ?2, ?3, ?4)";
    let rows = "SELECT count(*) FROM sessions \
         WHERE p_last = ?1 AND p_prev = ?2 AND a_last = ?3 AND a_prev = ?4";
    let store = in_memory(alloc, OLD_TABLE, row, tokens)?;
    fails_over(rt, alloc, store, rows, tokens)
}

fn new_row_fails(rt: &impl Abort, alloc: Global, tokens: &[ValueRef<'_>]) -> Result<(), Error> {
    let row = "INSERT INTO sessions2 VALUES ('s-1', 0, ?1, ?2, 0, ?3, ?4, 0)";
    let rows = "SELECT count(*) FROM sessions2 \
         WHERE p_last = ?1 AND p_prev = ?2 AND a_last = ?3 AND a_prev = ?4";
    let store = in_memory(alloc, NEW_TABLE, row, tokens)?;
    fails_over(rt, alloc, store, rows, tokens)
}

fn rows_fail(rt: &impl Abort, alloc: Global, tokens: [&[u8]; 4]) -> Result<(), Error> {
    let [p_last, p_prev, a_last, a_prev] = tokens;
    let tokens = params![p_last, p_prev, a_last, a_prev];
    old_row_fails(rt, alloc, tokens)?;
    new_row_fails(rt, alloc, tokens)
}

#[test]
fn a_stored_token_out_of_form_fails(rt: HostRuntime) -> Result<(), Fail> {
    let good = GOOD_TOKEN;
    for bad in BAD_TOKENS {
        for tokens in [
            [bad, good, good, good],
            [good, bad, good, good],
            [good, good, bad, good],
            [good, good, good, bad],
        ] {
            rows_fail(&rt, rt.alloc(), tokens)?;
        }
    }
    Ok(())
}

fn opened_fails(rt: &impl Abort, alloc: Global, plugin: i64, agent: i64) -> Result<(), Error> {
    let row = "INSERT INTO sessions2 VALUES ('s-1', 0, x'00000000000000010000000000000005', \
         NULL, ?1, x'00000000000000010000000000000005', NULL, ?2)";
    let rows = "SELECT count(*) FROM sessions2 WHERE p_opened = ?1 AND a_opened = ?2";
    let values = params![plugin, agent];
    let store = in_memory(alloc, NEW_TABLE, row, values)?;
    fails_over(rt, alloc, store, rows, values)
}

#[test]
fn a_negative_count_of_openings_fails(rt: HostRuntime) -> Result<(), Fail> {
    for (plugin, agent) in [(-1i64, 0i64), (0, -1)] {
        opened_fails(&rt, rt.alloc(), plugin, agent)?;
    }
    Ok(())
}

fn is_read(rt: &impl Abort, alloc: Global, flag: i64, answer: bool) -> Result<(), Error> {
    let row = "INSERT INTO sessions VALUES ('s-1', ?1, x'00000000000000010000000000000005', \
         NULL, x'00000000000000010000000000000005', NULL)";
    let store = in_memory(alloc, OLD_TABLE, row, params![flag])?;
    let keeper = SqliteKeeper::over(Some(store));
    let _ = are_answered(rt, alloc, keeper, b"s-1", &[Call::Ended(Ok(Some(answer)))]);
    Ok(())
}

#[test]
fn a_session_has_ended_where_its_flag_is_not_0(rt: HostRuntime) -> Result<(), Fail> {
    for (flag, answer) in [(0i64, false), (1, true), (-7, true)] {
        is_read(&rt, rt.alloc(), flag, answer)?;
    }
    Ok(())
}
