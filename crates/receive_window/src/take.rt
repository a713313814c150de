//! The answer of `Window::take`.

use chan_values::{Item, Items};

/// What became of a stream message that was heard.
#[derive(Debug, Drop)]
pub enum Take {
    /// It was taken, and these items are now in order; none if it came early.
    Released(Items),
    /// It was taken, and these items are now in order. The last of them is the last of its direction.
    Finished(Items),
    /// It was taken before.
    Late,
    /// Its number is outside the window.
    Beyond,
    /// It would come after the last message of its direction, which has this number, or it is said to
    /// be the last and this number, the least of those above it that were taken, comes after it.
    PastEnd(u64),
    /// There was no memory, and nothing changed. The item comes back.
    NoMemory(Item),
}
