//! How a spawner carries out a start.

use std::alloc::Global;

/// How the next start is to be carried out.
#[derive(Drop)]
pub enum Start {
    /// By a thread. The allocator is for the flag that the thread and its starter share.
    Thread(Global),
    /// By whoever joins it.
    Late,
    /// Not at all.
    Fail,
}

/// That no thread could be made. Only a start makes one.
#[derive(Drop)]
pub struct NoThread {
    pub(crate) made: (),
}
