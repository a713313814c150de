//! The line of a journal that is accepted.

ghost use Rattle.std.specs.Prelude.{◌≡◌, IfOk, string_bytes};
ghost use Rattle.lab_audit.specs.Lines.{verdict_line};

use chan_values::NoMemory;
use session_audit::Totals;
use std::alloc::Global;

/// The line that tells the totals.
pub(crate) fn verdict_line(alloc: Global, totals: Totals) -> Result<String, NoMemory>
    ensures { IfOk result (λ line. string_bytes line ≡ verdict_line totals) }
{
    let Totals {
        sent_p,
        sent_a,
        released_a,
        released_p,
    } = totals;
    Ok(format!(in alloc;
        "yes sent P {sent_p} A {sent_a} released A {released_a} P {released_p}\n"
    )?)
}
