//! The records of a journal, one after another.

ghost use Rattle.std.specs.Prelude.{◌≡◌, ◌+◌, ◌<◌, ◌≤◌, IfOk, IfErr, length};
ghost use Rattle.session_audit.specs.Journal.{size_in};
ghost use Rattle.session_audit.specs.Playing.{AreActable};
ghost use Rattle.session_audit.specs.Readings.{IsFaultAt, IsFront, IsRead, IsUnread};

use crate::act::Act;
use crate::record::{Reading, read};
use crate::verdict::Why;
use chan_values::Side;
use std::alloc::Global;

/// The bytes of a size: big-endian.
const SIZE_LENGTH: usize = 4;

/// The fewest bytes of a record: its end and its kind.
const MIN_RECORD: usize = 2;

/// The most bytes of a record: a whole message behind its end and its kind.
const MAX_RECORD: usize = 65_658;

/// What a record of a journal says, and where it stands.
#[derive(Debug, Drop)]
pub struct Saying {
    /// The offset of the record in the journal.
    pub at: u64,
    /// The end of which it was seen.
    pub side: Side,
    /// What was seen; none where no end of this side gives out such a message.
    pub act: Option<Act>,
}

/// Why a journal isn't read.
#[derive(Clone, Copy, Debug, PartialEq, Eq)]
pub enum Unread {
    /// At this offset its form has this fault, the first one.
    Fault(u64, Why),
    /// There was no memory.
    NoMemory,
}

/// The record at the front of bytes.
#[derive(Drop)]
struct Front {
    saying: Saying,
    // With its size.
    length: usize,
}

/// What the records of a journal say, in order, or the first fault of its form.
pub fn read_journal(alloc: Global, bytes: &[u8]) -> Result<Vec<Saying>, Unread>
    ensures read { IfOk result (λ sayings. IsRead bytes.now sayings.items) }
    ensures actable { IfOk result (λ sayings. AreActable sayings.items) }
    ensures fault { IfErr result (IsUnread bytes.now) }
{
    let mut sayings = Vec::new(alloc);
    let mut at = 0;
    while at < bytes.len() {
        let front = front_of(alloc, at as u64, &bytes[at..])?;
        match sayings.push(front.saying) {
            Ok(()) => {}
            Err(_) => return Err(Unread::NoMemory),
        }
        at += front.length;
    }
    Ok(sayings)
}

/// The record at the front of the bytes from this offset on.
fn front_of(alloc: Global, at: u64, bytes: &[u8]) -> Result<Front, Unread>
    requires { 0 < length bytes.now }
    ensures place { IfOk result (λ front. front.saying.at ≡ at) }
    ensures front { IfOk result (λ front. IsFront bytes.now front.length front.saying) }
    ensures fault { IfErr result (IsFaultAt at bytes.now) }
{
    let have = bytes.len();
    if have < SIZE_LENGTH {
        return Err(Unread::Fault(at, Why::Cut(have as u64)));
    }
    let said = size_of(bytes);
    let size = said as usize;
    if size < MIN_RECORD || size > MAX_RECORD {
        return Err(Unread::Fault(at, Why::Size(said as u64)));
    }
    if have - SIZE_LENGTH < size {
        return Err(Unread::Fault(at, Why::Cut(have as u64)));
    }
    let length = SIZE_LENGTH + size;
    match read(alloc, &bytes[SIZE_LENGTH..SIZE_LENGTH + size]) {
        Reading::Says(side, act) => {
            let saying = Saying {
                at,
                side,
                act: Some(act),
            };
            Ok(Front { saying, length })
        }
        Reading::Foreign(side) => {
            let saying = Saying {
                at,
                side,
                act: None,
            };
            Ok(Front { saying, length })
        }
        Reading::Faulty(why) => Err(Unread::Fault(at, why)),
        Reading::NoMemory => Err(Unread::NoMemory),
    }
}

/// The size at the front of bytes.
fn size_of(bytes: &[u8]) -> u32
    requires { 4 ≤ length bytes.now }
    ensures { result ≡ size_in bytes.now }
{
    let mut size = [0; 4];
    size.copy_from_slice(&bytes[0..4]);
    u32::from_be_bytes(size)
}
