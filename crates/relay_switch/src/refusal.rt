//! A connection that is refused.

ghost use Rattle.std.specs.Prelude.{◌≡◌, ◌≤◌};
ghost use Rattle.chan_io.specs.Faults.{IfFailed, Rises, UnlessFailed};
ghost use Rattle.relay_switch.specs.Outlets.{Refuses, refusal};

use chan_io::{IoFault, LinkOut};

/// Sends the one reply of a connection that is refused, and ends it; with `true`, the reply that the
/// session has ended.
pub fn refuse<U: LinkOut>(output: &mut U, ended: bool) -> Result<(), IoFault>
    ensures refuses { Refuses ended result (U.departures output.old) (U.departures output.new) }
    ensures steady { UnlessFailed result (U.faults output.new ≡ U.faults output.old) }
    ensures failed { IfFailed result (Rises (U.faults output.old) (U.faults output.new)) }
{
    let sent = output.send_text(refusal(ended));
    output.shut();
    sent
}

/// The reply.
fn refusal(ended: bool) -> &'static [u8]
    ensures { result.now ≡ refusal ended }
{
    if ended {
        b"{\"Accepted\":false,\"Ended\":true,\"ResumeToken\":\"\"}"
    } else {
        b"{\"Accepted\":false,\"Ended\":false,\"ResumeToken\":\"\"}"
    }
}
