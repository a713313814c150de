//! The streams of one end, by id.

ghost use Rattle.std.specs.Prelude.{◌≡◌, ◌≢◌, ℕ, ◌++◌, IfSome, Some, None, OnOk, OnErr, true, false, Option, nat_eq, if◌then◌else◌};
ghost use Rattle.std.specs.Ordering.{nat_cmp};
ghost use Rattle.std.specs.BTreeMap.{get};
ghost use Rattle.smux_store.specs.declared.stream.Stream.{Stream};
ghost use Rattle.smux_store.specs.Streams.{Gives, changed_at, fresh, is_dead, still, takes_data, undo_at, with_data, with_end, with_shut};

use crate::answers::Taken;
use crate::stream::Stream;
use crate::trail::Step;
use chan_values::NoMemory;
use std::alloc::Global;
use std::collections::BTreeMap;

/// Adds a stream.
pub fn begin(alloc: Global, streams: &mut BTreeMap<u32, Stream>, sid: u32) -> Result<(), NoMemory>
    ensures ok { OnOk result ((q : ℕ) → get nat_cmp streams.new q
        ≡ (if nat_eq q sid then Some fresh else get nat_cmp streams.old q)) }
    ensures err { OnErr result ((q : ℕ) → get nat_cmp streams.new q ≡ get nat_cmp streams.old q) }
{
    streams.insert(sid, Stream::new(alloc))?;
    Ok(())
}

/// Whether data of a stream is kept: it lives, and its end did not come.
pub fn keeps_data(streams: &BTreeMap<u32, Stream>, sid: u32) -> bool
    ensures { result ≡ takes_data (get nat_cmp streams.now sid) }
{
    match streams.get(&sid) {
        None => false,
        Some(stream) => !stream.over,
    }
}

/// Adds data to a stream.
pub fn add(streams: &mut BTreeMap<u32, Stream>, sid: u32, bytes: &[u8]) -> Result<(), NoMemory>
    ensures ok { OnOk result ((q : ℕ) → get nat_cmp streams.new q
        ≡ changed_at sid (with_data bytes.now) q (get nat_cmp streams.old q)) }
    ensures err { OnErr result ((q : ℕ) → get nat_cmp streams.new q ≡ get nat_cmp streams.old q) }
{
    match streams.get_mut(&sid) {
        None => Ok(()),
        Some(stream) => stream.add(bytes),
    }
}

/// Notes whether the end of a stream came.
pub fn set_over(streams: &mut BTreeMap<u32, Stream>, sid: u32, over: bool)
    ensures { (q : ℕ) → get nat_cmp streams.new q
        ≡ changed_at sid (with_end over) q (get nat_cmp streams.old q) }
{
    if let Some(stream) = streams.get_mut(&sid) {
        stream.over = over;
    }
}

/// Lets the last bytes of data of a stream go.
pub fn cut(streams: &mut BTreeMap<u32, Stream>, sid: u32, count: usize)
    ensures { (q : ℕ) → get nat_cmp streams.new q
        ≡ undo_at (Step.Got sid count) q (get nat_cmp streams.old q) }
{
    if let Some(stream) = streams.get_mut(&sid) {
        stream.cut(count);
    }
}

/// Takes the next bytes of a stream.
pub fn give(streams: &mut BTreeMap<u32, Stream>, sid: u32, max: usize) -> Taken
    ensures unknown { get nat_cmp streams.old sid ≡ None → result ≡ Taken.Unknown }
    ensures given { IfSome (get nat_cmp streams.old sid) (λ t.
        (u : Stream) × (Gives t u max result × (get nat_cmp streams.new sid ≡ Some u))) }
    ensures others { (q : ℕ) → q ≢ sid → get nat_cmp streams.new q ≡ get nat_cmp streams.old q }
    ensures none { get nat_cmp streams.old sid ≡ None → get nat_cmp streams.new sid ≡ None }
{
    match streams.get_mut(&sid) {
        None => Taken::Unknown,
        Some(stream) => stream.take(max),
    }
}

/// Notes that a stream was closed here.
pub fn shut(streams: &mut BTreeMap<u32, Stream>, sid: u32)
    ensures { (q : ℕ) → get nat_cmp streams.new q
        ≡ changed_at sid with_shut q (get nat_cmp streams.old q) }
{
    if let Some(stream) = streams.get_mut(&sid) {
        stream.shut = true;
    }
}

/// Lets a stream go that was closed here and whose end was told, and tells whether it was so.
pub fn bury(streams: &mut BTreeMap<u32, Stream>, sid: u32) -> bool
    ensures told { result ≡ is_dead (get nat_cmp streams.old sid) }
    ensures kept { (q : ℕ) → get nat_cmp streams.new q
        ≡ (if nat_eq q sid then still (get nat_cmp streams.old q)
        else get nat_cmp streams.old q) }
{
    let dead = match streams.get(&sid) {
        None => false,
        Some(stream) => stream.shut && stream.finished,
    };
    if dead {
        let _stream = streams.remove(&sid);
    }
    dead
}
