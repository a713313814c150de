//! What a session asks for.

ghost use Rattle.std.specs.Prelude.{◌≡◌, [], ◌∷◌, IfOk, false};
ghost use Rattle.session_feeds.specs.Sessions.{refusal_in};
ghost use Rattle.shell_session.specs.Verdicts.{AsksNothing, AsksToPut};

use chan_values::{Item, Items, NoMemory};
use session_feeds::{SessionFault, Verdict};
use std::alloc::Global;

/// Nothing is asked for.
pub(crate) fn nothing<F: Drop>(alloc: Global) -> Verdict<F>
    ensures { AsksNothing result }
{
    Verdict {
        puts: Items::none(alloc),
        last: false,
        feeders: Vec::new(alloc),
        finish: false,
    }
}

/// One item is to be put in, as the last of its direction or not, and then the session may end or go on.
pub(crate) fn put<F: Drop>(
    alloc: Global,
    item: Item,
    last: bool,
    finish: bool,
) -> Result<Verdict<F>, NoMemory>
    ensures { IfOk result (AsksToPut item last finish) }
{
    let puts = vec![in alloc; item]?;
    Ok(Verdict {
        puts: Items::new(puts),
        last,
        feeders: Vec::new(alloc),
        finish,
    })
}

/// The refusal of a call, if it was refused.
pub(crate) fn refusal<X>(answer: &Result<X, SessionFault>) -> Option<SessionFault>
    ensures { result ≡ refusal_in answer.now }
{
    match answer {
        Ok(_) => None,
        Err(fault) => Some(*fault),
    }
}
