//! What an opening of a row answers, and the row that it leaves.

ghost use Rattle.std.specs.Prelude.{◌≡◌, ◌≤◌, Some, MatchOption};
ghost use Rattle.session_register.specs.Rows.{IsRow, answer_by_chain, answer_to_open, chain_after, counted, greatest, is_prev, opened_row};

use crate::answer::Open;
use crate::row::{Chain, Row};
use crate::token::{GREATEST_COUNT, Token};
use chan_values::Side;

/// The answer to an opening of a row, and the row that it leaves, where that is another.
#[derive(Clone, Copy)]
pub(crate) struct Opening {
    pub(crate) answer: Open,
    pub(crate) next: Option<Row>,
}

impl Opening {
    /// The opening of a row by an end that shows a token.
    pub(crate) fn of(row: Row, role: Side, token: Token, fresh: u64) -> Opening
        requires { IsRow row }
        ensures answer { result.answer ≡ answer_to_open (Some row) role token fresh }
        ensures next { let after = opened_row result.answer role row in
            MatchOption result.next (after ≡ row) (λ next. (next ≡ after) × IsRow next) }
    {
        let chain = row.chain(role);
        let answer = judge(&chain, row.ended, token, fresh);
        match answer {
            Open::Successor(_) | Open::Same(_) => Opening {
                answer,
                next: Some(row.with_chain(role, after_opening(chain, answer))),
            },
            _ => Opening { answer, next: None },
        }
    }
}

/// Which answer a token gets that is shown to a chain.
fn judge(chain: &Chain, ended: bool, token: Token, fresh: u64) -> Open
    requires { chain.now.last.count ≤ greatest }
    ensures { result ≡ answer_by_chain chain.now ended token fresh }
{
    let last = chain.last;
    let again = is_prev(token, chain.prev);
    if token != last && !again {
        Open::BadToken
    } else if ended {
        Open::Ended
    } else if again {
        Open::Same(last)
    } else if last.count == GREATEST_COUNT {
        Open::Spent
    } else {
        Open::Successor(last.successor(fresh))
    }
}

fn is_prev(token: Token, prev: Option<Token>) -> bool
    ensures { result ≡ is_prev token prev }
{
    match prev {
        Some(prev) => token == prev,
        None => false,
    }
}

/// The chain after an opening that got this answer.
fn after_opening(chain: Chain, answer: Open) -> Chain
    ensures { result ≡ chain_after answer chain }
{
    match answer {
        Open::Successor(token) => Chain {
            last: token,
            prev: Some(chain.last),
            opened: counted(chain.opened),
        },
        Open::Same(_) => Chain {
            opened: counted(chain.opened),
            ..chain
        },
        _ => chain,
    }
}

fn counted(opened: u64) -> u64
    ensures { result ≡ counted opened }
{
    if opened >= GREATEST_COUNT {
        GREATEST_COUNT
    } else {
        opened + 1
    }
}
