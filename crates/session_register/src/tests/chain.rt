//! The worked chain, with a new register before each call, over each keeper.

use super::{Call, are_answered, name, token};
use crate::{Closing, Created, Keeper, MapKeeper, Open, Register, SessionName, SqliteKeeper};
use chan_values::Side;
use std::alloc::Global;
use std::process::Abort;
use std::test::Fail;

pub(crate) fn begin<K: Keeper + Drop>(rt: &impl Abort, alloc: Global, keeper: K) -> K {
    let first = token(1, 7);
    let second = token(2, 8);
    let calls = [
        Call::Ended(Ok(None)),
        Call::Create(Ok(Created::New(first, token(1, 5)))),
        Call::Create(Ok(Created::Exists)),
        Call::Open(Side::Plugin, first, 8, Ok(Open::Successor(second))),
        // With the token before the last.
        Call::Open(Side::Plugin, first, 9, Ok(Open::Same(second))),
        Call::Ended(Ok(Some(false))),
    ];
    are_answered(rt, alloc, keeper, b"s-1", &calls)
}

fn go_on_to_the_end<K: Keeper + Drop>(rt: &impl Abort, alloc: Global, keeper: K) -> K {
    let last = token(3, 10);
    let calls = [
        Call::Open(Side::Plugin, token(2, 8), 10, Ok(Open::Successor(last))),
        // An older token, and the one of the other end.
        Call::Open(Side::Plugin, token(1, 7), 11, Ok(Open::BadToken)),
        Call::Open(Side::Agent, last, 11, Ok(Open::BadToken)),
        Call::End(Ok(Closing::Done)),
        Call::Open(Side::Plugin, last, 12, Ok(Open::Ended)),
    ];
    are_answered(rt, alloc, keeper, b"s-1", &calls)
}

pub(crate) fn is_closed<K: Keeper + Drop>(rt: &impl Abort, alloc: Global, keeper: K) -> K {
    let calls = [Call::Ended(Ok(Some(true))), Call::Counts(Ok(Some((3, 0))))];
    are_answered(rt, alloc, keeper, b"s-1", &calls)
}

fn has_no_other<K: Keeper + Drop>(rt: &impl Abort, alloc: Global, keeper: K) -> K {
    let calls = [
        Call::Open(Side::Plugin, token(3, 10), 12, Ok(Open::NoSession)),
        Call::End(Ok(Closing::NoSession)),
        Call::Ended(Ok(None)),
        Call::Counts(Ok(None)),
    ];
    are_answered(rt, alloc, keeper, b"s-2", &calls)
}

fn has_no_row<K: Keeper>(alloc: Global, keeper: &mut K, session: &SessionName) -> bool {
    matches!(keeper.get(alloc, session), Ok(None))
}

pub(crate) fn go_on<K: Keeper + Drop>(rt: &impl Abort, alloc: Global, keeper: K) -> K {
    let keeper = go_on_to_the_end(rt, alloc, keeper);
    let keeper = is_closed(rt, alloc, keeper);
    let mut keeper = has_no_other(rt, alloc, keeper);
    assert!(rt; has_no_row(alloc, &mut keeper, &name(rt, b"s-2")));
    assert_eq!(rt; keeper.faults(), 0);
    keeper
}

#[test]
fn registers_over_a_map_make_one_chain(rt: HostRuntime) {
    let alloc = rt.alloc();
    let keeper = begin(&rt, alloc, MapKeeper::new(alloc));
    let _ = go_on(&rt, alloc, keeper);
}

#[test]
fn registers_over_tables_in_memory_make_one_chain(rt: HostRuntime) -> Result<(), Fail> {
    let alloc = rt.alloc();
    let keeper = begin(&rt, alloc, SqliteKeeper::in_memory(alloc)?);
    let _ = go_on(&rt, alloc, keeper);
    Ok(())
}

type MapRegister = Register<MapKeeper>;

fn is_made(alloc: Global, register: &mut MapRegister, session: &SessionName) -> bool {
    let new = Created::New(token(1, 7), token(1, 5));
    register.create(alloc, session, 7, 5) == Ok(new)
}

fn is_there(alloc: Global, register: &mut MapRegister, session: &SessionName) -> bool {
    register.create(alloc, session, 7, 5) == Ok(Created::Exists)
}

fn is_opened(alloc: Global, register: &mut MapRegister, session: &SessionName) -> bool {
    let opened = register.open(alloc, session, Side::Plugin, token(1, 7), 8);
    opened == Ok(Open::Successor(token(2, 8)))
}

#[test]
fn one_register_answers_call_after_call(rt: HostRuntime) {
    let alloc = rt.alloc();
    let one = name(&rt, b"s-1");
    let mut register = Register::new(MapKeeper::new(alloc));
    assert!(rt; is_made(alloc, &mut register, &one));
    assert!(rt; is_there(alloc, &mut register, &one));
    assert!(rt; is_opened(alloc, &mut register, &one));
}
