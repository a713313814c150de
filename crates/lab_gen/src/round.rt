//! What a round of a generated script does.

ghost use Rattle.std.specs.Prelude.{◌≡◌, ◌/◌, ◌^◌};
ghost use Rattle.lab_gen.specs.Generator.{number_after, round_of_bits};

use chan_values::Side;

/// The multiplier and the increment of the linear congruential generator, whose modulus is 2^64 (Knuth,
/// The Art of Computer Programming, volume 2, 3.3.4).
const MULTIPLIER: u64 = 6_364_136_223_846_793_005;

const INCREMENT: u64 = 1_442_695_040_888_963_407;

/// What a round of a generated script does.
#[derive(Clone, Copy, Debug, PartialEq, Eq)]
pub enum Round {
    /// The user of this end puts in an item.
    Put(Side),
    /// This end pulls, and the other hears the latest of its emissions.
    Send(Side),
    /// This end pulls, and what it emits is lost; then it looks at its timer.
    Lose(Side),
    /// Both ends lose their connection, and have a new one.
    Reconnect,
}

/// The number behind this one.
pub(crate) fn number_after(number: u64) -> u64
    ensures { result ≡ number_after number }
{
    number.wrapping_mul(MULTIPLIER).wrapping_add(INCREMENT)
}

/// The round that a number asks for, by its upper four bits.
pub(crate) fn round_of(number: u64) -> Round
    ensures { result ≡ round_of_bits (number / 2 ^ 60) }
{
    match number >> 60 {
        0..=2 => Round::Put(Side::Plugin),
        3..=4 => Round::Put(Side::Agent),
        5..=8 => Round::Send(Side::Plugin),
        9..=12 => Round::Send(Side::Agent),
        13 => Round::Lose(Side::Plugin),
        14 => Round::Lose(Side::Agent),
        _ => Round::Reconnect,
    }
}
