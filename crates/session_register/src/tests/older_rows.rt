//! Rows of a store that counted no openings.

use super::tables::{OLD_TABLE, in_memory};
use super::{Call, are_answered, is_put, name, row_in, token};
use crate::{
    Chain, Keeper, OldChain, OldRow, Open, Row, SessionName, SqliteKeeper, Token, upgrade,
};
use chan_values::{Bytes, Side, Text};
use register_sql::{RawChain, RawOldChain, RawOldRow, RawRow, prepare, select_old, select_row};
use sqlite::{Connection, Error, MemStore};
use std::alloc::Global;
use std::process::Abort;
use std::test::Fail;

const OLD_ROW: &str = "INSERT INTO sessions VALUES ('s-1', 0, \
     x'0000000000000003000000000000000a', x'00000000000000020000000000000008', \
     x'00000000000000010000000000000005', NULL)";

const LAST: Token = Token {
    count: 3,
    random: 10,
};

const PREV: Token = Token {
    count: 2,
    random: 8,
};

const AGENT: Token = Token {
    count: 1,
    random: 5,
};

fn older(alloc: Global) -> Result<Connection<MemStore>, Error> {
    in_memory(alloc, OLD_TABLE, OLD_ROW, &[])
}

fn is_upgraded_plugin(chain: &Chain) -> bool {
    chain.last == LAST && chain.prev == Some(PREV) && chain.opened == 2
}

fn is_upgraded_agent(chain: &Chain) -> bool {
    chain.last == AGENT && chain.prev.is_none() && chain.opened == 0
}

fn is_upgraded(row: &Row) -> bool {
    row.session.as_bytes() == b"s-1".as_slice()
        && !row.ended
        && is_upgraded_plugin(&row.plugin)
        && is_upgraded_agent(&row.agent)
}

#[test]
fn an_upgrade_counts_each_token_but_the_first(rt: HostRuntime) {
    let row = upgrade(OldRow {
        session: name(&rt, b"s-1"),
        ended: false,
        plugin: OldChain {
            last: LAST,
            prev: Some(PREV),
        },
        agent: OldChain {
            last: AGENT,
            prev: None,
        },
    });
    assert!(rt; is_upgraded(&row));
}

fn go_on<K: Keeper + Drop>(rt: &impl Abort, alloc: Global, keeper: K) -> K {
    let next = token(2, 6);
    let calls = [
        Call::Counts(Ok(Some((2, 0)))),
        Call::Open(Side::Plugin, PREV, 1, Ok(Open::Same(LAST))),
        Call::Counts(Ok(Some((3, 0)))),
        Call::Open(Side::Agent, AGENT, 6, Ok(Open::Successor(next))),
        Call::Counts(Ok(Some((3, 1)))),
    ];
    are_answered(rt, alloc, keeper, b"s-1", &calls)
}

#[test]
fn an_older_chain_goes_on_where_it_was(rt: HostRuntime) -> Result<(), Fail> {
    let alloc = rt.alloc();
    let keeper = go_on(&rt, alloc, SqliteKeeper::over(Some(older(alloc)?)));
    assert_eq!(rt; keeper.faults(), 0);
    Ok(())
}

// The row that it gives, put as it is.
fn is_put_upgraded<K: Keeper>(alloc: Global, keeper: &mut K, session: &SessionName) -> bool {
    match row_in(alloc, keeper, session) {
        Some(row) => is_upgraded(&row) && is_put(alloc, keeper, row),
        None => false,
    }
}

fn is_token(bytes: &Bytes, token: Token) -> bool {
    bytes.as_slice() == token.to_bytes().as_slice()
}

fn is_optional_token(bytes: &Option<Bytes>, token: Token) -> bool {
    match bytes {
        Some(bytes) => is_token(bytes, token),
        None => false,
    }
}

fn is_old_plugin(chain: &RawOldChain) -> bool {
    is_token(&chain.last, LAST) && is_optional_token(&chain.prev, PREV)
}

fn is_old_agent(chain: &RawOldChain) -> bool {
    is_token(&chain.last, AGENT) && chain.prev.is_none()
}

fn is_old_row(row: &RawOldRow) -> bool {
    row.session.as_str() == "s-1"
        && row.ended == 0
        && is_old_plugin(&row.plugin)
        && is_old_agent(&row.agent)
}

fn is_plugin(chain: &RawChain) -> bool {
    is_token(&chain.last, LAST) && is_optional_token(&chain.prev, PREV) && chain.opened == 2
}

fn is_agent(chain: &RawChain) -> bool {
    is_token(&chain.last, AGENT) && chain.prev.is_none() && chain.opened == 0
}

fn is_new_row(row: &RawRow) -> bool {
    row.session.as_str() == "s-1"
        && row.ended == 0
        && is_plugin(&row.plugin)
        && is_agent(&row.agent)
}

fn has_old_row(store: &mut Connection<MemStore>, session: &Text) -> bool {
    match select_old(store, session) {
        Ok(Some(row)) => is_old_row(&row),
        _ => false,
    }
}

fn has_new_row(store: &mut Connection<MemStore>, session: &Text) -> bool {
    match select_row(store, session) {
        Ok(Some(row)) => is_new_row(&row),
        _ => false,
    }
}

fn has_no_new_row(store: &mut Connection<MemStore>, session: &Text) -> bool {
    matches!(select_row(store, session), Ok(None))
}

fn is_prepared(store: &mut Connection<MemStore>) -> bool {
    prepare(store).is_ok()
}

fn has_old_row_alone(store: &mut Connection<MemStore>, session: &Text) -> bool {
    is_prepared(store) && has_no_new_row(store, session) && has_old_row(store, session)
}

// The store after its keeper put the row that it gave.
fn put_upgraded(
    rt: &impl Abort,
    alloc: Global,
    store: Connection<MemStore>,
) -> Option<Connection<MemStore>> {
    let mut keeper = SqliteKeeper::over(Some(store));
    assert!(rt; is_put_upgraded(alloc, &mut keeper, &name(rt, b"s-1")));
    keeper.into_store()
}

fn has_both_rows(store: Option<Connection<MemStore>>, session: &Text) -> bool {
    match store {
        Some(mut store) => has_new_row(&mut store, session) && has_old_row(&mut store, session),
        None => false,
    }
}

#[test]
fn an_older_row_stays_when_the_upgraded_one_is_put(rt: HostRuntime) -> Result<(), Fail> {
    let alloc = rt.alloc();
    let session = Text::new(String::from_str(alloc, "s-1")?);
    let mut store = older(alloc)?;
    assert!(rt; has_old_row_alone(&mut store, &session));
    let store = put_upgraded(&rt, alloc, store);
    assert!(rt; has_both_rows(store, &session));
    Ok(())
}
