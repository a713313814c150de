//! The fields of a message at their offsets.

ghost use Rattle.std.specs.Prelude.{◌≡◌, ◌+◌, ◌≤◌, ◌++◌, length, slice_range};
ghost use Rattle.std.specs.Int.{w32, w64, cast_signed};
ghost use Rattle.agent_message.specs.Fields.{number_at};

/// The number of four bytes at an offset.
pub fn u32_at(bytes: &[u8], at: usize) -> u32
    requires { at + 4 ≤ length bytes.now }
    ensures { result ≡ number_at w32 at bytes.now }
{
    u32::from_be_bytes(array_at(bytes, at))
}

/// The number of eight bytes at an offset.
pub fn u64_at(bytes: &[u8], at: usize) -> u64
    requires { at + 8 ≤ length bytes.now }
    ensures { result ≡ number_at w64 at bytes.now }
{
    u64::from_be_bytes(array_at(bytes, at))
}

/// The number of eight bytes at an offset, in two's complement.
pub fn i64_at(bytes: &[u8], at: usize) -> i64
    requires { at + 8 ≤ length bytes.now }
    ensures { result ≡ cast_signed w64 (number_at w64 at bytes.now) }
{
    i64::from_be_bytes(array_at(bytes, at))
}

/// MessageId, whose second half stands first.
pub fn id_at(bytes: &[u8], at: usize) -> [u8; 16]
    requires { at + 16 ≤ length bytes.now }
    ensures { result
        ≡ slice_range bytes.now (at + 8) (at + 16) ++ slice_range bytes.now at (at + 8) }
{
    let mut id = [0; 16];
    let (first, second) = id.split_at_mut(8);
    first.copy_from_slice(&bytes[at + 8..at + 16]);
    second.copy_from_slice(&bytes[at..at + 8]);
    id
}

/// The bytes from an offset on.
pub fn array_at<const N: usize>(bytes: &[u8], at: usize) -> [u8; N]
    requires { at + N ≤ length bytes.now }
    ensures { result ≡ slice_range bytes.now at (at + N) }
{
    let mut array = [0; N];
    array.copy_from_slice(&bytes[at..at + N]);
    array
}
