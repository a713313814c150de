//! What a seat knows, and what lies in the slot. No value of a `View` is ever made.
use std::collections::LinkedList;
use std::snapshot::Snapshot;

/// One entry of a history.
pub struct Entry<C, A> {
    /// The number of the seat that made the call.
    pub number: u64,
    /// The call.
    pub call: C,
    /// Its answer.
    pub answer: A,
}

/// What part of a lock's seats one seat is: `parts` / 2 ^ `depth`. That of all seats together is 1.
pub struct Share {
    /// The numerator.
    pub parts: u64,
    /// The exponent of 2 in the denominator.
    pub depth: u64,
}

/// What two seats were before one was joined into the other.
pub struct Merge<C, A> {
    /// What the seat that goes on had seen.
    pub seen: LinkedList<Entry<C, A>>,
    /// Its own entries.
    pub mine: LinkedList<Entry<C, A>>,
    /// The number of the seat that ended.
    pub other: u64,
    /// What that seat had seen.
    pub other_seen: LinkedList<Entry<C, A>>,
    /// Its own entries.
    pub other_mine: LinkedList<Entry<C, A>>,
}

/// What a seat is about to do.
pub enum Stage<C, A> {
    /// It was split off, and was not told its number yet: it has its parent's.
    Fresh,
    /// It is between two calls.
    Idle,
    /// It drew this ticket, which is not served yet.
    Waits(u64),
    /// Its ticket, this one, is served: it holds the value.
    Serves(u64),
    /// Another seat was joined into it, and it was not told yet what follows.
    Joined(Merge<C, A>),
    /// It was joined into another seat.
    Spent,
}

/// What a seat knows.
pub struct View<C, A, T> {
    /// The setting of the value with which the lock was made.
    pub setting: T,
    /// The number of the seat: how many seats were made before it.
    pub number: u64,
    /// The beginning of the history that it has seen.
    pub seen: LinkedList<Entry<C, A>>,
    /// Its own entries, and those of the seats that were joined into it.
    pub mine: LinkedList<Entry<C, A>>,
    /// Its share of all seats.
    pub share: Share,
    /// What it is about to do.
    pub stage: Stage<C, A>,
}

/// The last call, known to contracts alone.
#[derive(Drop)]
pub struct LastCall<C, A> {
    /// The call.
    pub call: Snapshot<C>,
    /// Its answer.
    pub answer: Snapshot<A>,
}

/// What lies in the slot of a lock.
#[derive(Drop)]
pub struct Locked<V, C, A> {
    /// The value.
    pub value: V,
    /// The call that it answered last. The step that serves the next ticket enters it.
    pub last: Option<LastCall<C, A>>,
}
