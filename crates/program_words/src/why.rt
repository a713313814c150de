//! The numbers of the handshake's refusals, as a status line has them.

ghost use Rattle.std.specs.Prelude.{◌≡◌};
ghost use Rattle.program_words.specs.Statuses.{why_number};

use handshake::Why;

/// The number of why an item is refused.
pub fn why_number(why: Why) -> u8
    ensures { result ≡ why_number why }
{
    match why {
        Why::Order(_) => 1,
        Why::Body(_) => 2,
        Why::NoSession => 3,
        Why::Failed(_) => 4,
    }
}
