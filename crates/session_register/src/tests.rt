//! Lists of calls over a keeper, each by a new register, with the answers that they have to get.

mod chain;
mod file;
mod older_rows;
mod spent_chain;
mod stored_rows;
mod tables;

ghost use Rattle.std.specs.Prelude.{IfSome};
ghost use Rattle.session_register.specs.Rows.{IsRow};

use crate::{Closing, Created, IoFault, Keeper, Open, Register, Row, SessionName, Token};
use chan_values::Side;
use std::alloc::Global;
use std::process::Abort;

fn token(count: u64, random: u64) -> Token {
    Token { count, random }
}

fn name(rt: &impl Abort, text: &[u8]) -> SessionName {
    SessionName::new(text).expect(rt, "it is a name")
}

// A call, and the answer that it has to get.
#[derive(Clone, Copy)]
enum Call {
    // The first tokens have the numbers 7 and 5.
    Create(Result<Created, IoFault>),
    // The end, its token, and the number for the next one.
    Open(Side, Token, u64, Result<Open, IoFault>),
    End(Result<Closing, IoFault>),
    Ended(Result<Option<bool>, IoFault>),
    Counts(Result<Option<(u64, u64)>, IoFault>),
}

fn creates<K: Keeper + Drop>(
    alloc: Global,
    keeper: K,
    session: &SessionName,
    answer: Result<Created, IoFault>,
) -> (K, bool) {
    let mut register = Register::new(keeper);
    let is = register.create(alloc, session, 7, 5) == answer;
    (register.into_keeper(), is)
}

fn opens<K: Keeper + Drop>(
    alloc: Global,
    keeper: K,
    session: &SessionName,
    shown: (Side, Token, u64),
    answer: Result<Open, IoFault>,
) -> (K, bool) {
    let mut register = Register::new(keeper);
    let (role, token, fresh) = shown;
    let is = register.open(alloc, session, role, token, fresh) == answer;
    (register.into_keeper(), is)
}

fn ends<K: Keeper + Drop>(
    alloc: Global,
    keeper: K,
    session: &SessionName,
    answer: Result<Closing, IoFault>,
) -> (K, bool) {
    let mut register = Register::new(keeper);
    let is = register.end(alloc, session) == answer;
    (register.into_keeper(), is)
}

fn tells_ended<K: Keeper + Drop>(
    alloc: Global,
    keeper: K,
    session: &SessionName,
    answer: Result<Option<bool>, IoFault>,
) -> (K, bool) {
    let mut register = Register::new(keeper);
    let is = register.ended(alloc, session) == answer;
    (register.into_keeper(), is)
}

fn tells_counts<K: Keeper + Drop>(
    alloc: Global,
    keeper: K,
    session: &SessionName,
    answer: Result<Option<(u64, u64)>, IoFault>,
) -> (K, bool) {
    let mut register = Register::new(keeper);
    let is = register.counts(alloc, session) == answer;
    (register.into_keeper(), is)
}

// Whether a call of a new register gets its answer. The keeper comes back.
fn is_answered<K: Keeper + Drop>(
    alloc: Global,
    keeper: K,
    session: &SessionName,
    call: Call,
) -> (K, bool) {
    match call {
        Call::Create(answer) => creates(alloc, keeper, session, answer),
        Call::Open(role, token, fresh, answer) => {
            opens(alloc, keeper, session, (role, token, fresh), answer)
        }
        Call::End(answer) => ends(alloc, keeper, session, answer),
        Call::Ended(answer) => tells_ended(alloc, keeper, session, answer),
        Call::Counts(answer) => tells_counts(alloc, keeper, session, answer),
    }
}

// Each call gets its answer.
fn are_answered<K: Keeper + Drop>(
    rt: &impl Abort,
    alloc: Global,
    keeper: K,
    session: &[u8],
    calls: &[Call],
) -> K {
    let session = name(rt, session);
    let mut keeper = keeper;
    for (at, call) in calls.iter().enumerate() {
        let (next, is) = is_answered(alloc, keeper, &session, *call);
        assert!(rt; is, "call {at}");
        keeper = next;
    }
    keeper
}

// A row that a keeper gave may be put.

fn row_in<K: Keeper>(alloc: Global, keeper: &mut K, session: &SessionName) -> Option<Row>
    ensures { IfSome result IsRow }
{
    match keeper.get(alloc, session) {
        Ok(row) => row,
        Err(_) => None,
    }
}

fn is_put<K: Keeper>(alloc: Global, keeper: &mut K, row: Row) -> bool
    requires { IsRow row }
{
    keeper.put(alloc, row) == Ok(())
}
