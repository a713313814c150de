//! A chain whose last token has the greatest count.

use super::tables::{NEW_TABLE, in_memory};
use super::{Call, are_answered, is_put, name, row_in, token};
use crate::{Keeper, MapKeeper, Open, SqliteKeeper};
use chan_values::Side;
use sqlite::{Error, MemStore};
use std::alloc::Global;
use std::process::Abort;
use std::test::Fail;

// The plugin's tokens have the counts 2^63 - 1 and 2^63 - 2, and it was opened 2^63 - 1 times.
const SPENT_ROW: &str = "INSERT INTO sessions2 VALUES ('s-1', 0, \
     x'7fffffffffffffff0000000000000001', x'7ffffffffffffffe0000000000000002', \
     9223372036854775807, x'00000000000000010000000000000005', NULL, 0)";

const GREATEST: u64 = 9_223_372_036_854_775_807;

fn spent(alloc: Global) -> Result<SqliteKeeper<MemStore>, Error> {
    let store = in_memory(alloc, NEW_TABLE, SPENT_ROW, &[])?;
    Ok(SqliteKeeper::over(Some(store)))
}

// A keeper in a map that was put the row of another.
fn in_map<K: Keeper>(rt: &impl Abort, alloc: Global, keeper: &mut K) -> MapKeeper {
    let row = row_in(alloc, keeper, &name(rt, b"s-1")).expect(rt, "the row is found");
    let mut map = MapKeeper::new(alloc);
    assert!(rt; is_put(alloc, &mut map, row));
    map
}

fn stands_still<K: Keeper + Drop>(rt: &impl Abort, alloc: Global, keeper: K) -> K {
    let last = token(GREATEST, 1);
    let prev = token(9_223_372_036_854_775_806, 2);
    let calls = [
        Call::Open(Side::Plugin, prev, 3, Ok(Open::Same(last))),
        Call::Open(Side::Plugin, last, 4, Ok(Open::Spent)),
        Call::Counts(Ok(Some((GREATEST, 0)))),
    ];
    are_answered(rt, alloc, keeper, b"s-1", &calls)
}

#[test]
fn a_chain_is_spent_at_the_greatest_count(rt: HostRuntime) -> Result<(), Fail> {
    let alloc = rt.alloc();
    let mut keeper = stands_still(&rt, alloc, spent(alloc)?);
    let map = in_map(&rt, alloc, &mut keeper);
    let _ = stands_still(&rt, alloc, map);
    Ok(())
}
