//! The address of a relay.

ghost use Rattle.std.specs.Prelude.{◌≡◌, ℕ, ◌++◌, decimal};
ghost use Rattle.std.specs.Bool.{Decides};
ghost use Rattle.program_words.specs.Options.{IsAddress, IsPositive};

use crate::number::read_positive;

/// Whether a text is an address: `HOST:PORT`, with a host that is this machine.
pub fn is_address(text: &str) -> bool
    ensures { Decides result (IsAddress text.now) }
{
    let bytes = text.as_bytes();
    let by_number = has_port_behind(bytes, b"127.0.0.1:");
    let by_name = has_port_behind(bytes, b"localhost:");
    by_number | by_name
}

/// Whether a text is this front and the digits of a port.
fn has_port_behind(text: &[u8], front: &[u8]) -> bool
    ensures { Decides result ((port : ℕ) × IsPositive port × (text.now ≡ front.now ++ decimal port)) }
{
    match text.strip_prefix(front) {
        Some(port) => read_positive(port).is_some(),
        None => false,
    }
}
