//! What the objects of one link share.

use crate::halves::{Reading, Writing};
use chan_pipes::Stop;
use std::net::Shutdown;
use std::sync::atomic::{AtomicU64, Ordering};
use std::sync::{Mutex, Wait};
use tungstenite::MaskKeys;

/// The halves of a connection that nobody has taken yet.
#[derive(Drop)]
struct Slot<K> {
    reading: Option<Reading<K>>,
    writing: Option<Writing<K>>,
}

/// The current connection of a link, and whether the link is over.
#[derive(Drop)]
pub(crate) struct Line<K> {
    slot: Mutex<Slot<K>>,
    // Counts the connections, so that each half sees when there is a new one.
    connections: AtomicU64,
    over: Stop,
}

impl<K: MaskKeys + Drop> Line<K> {
    /// A line without a connection.
    pub(crate) fn new() -> Line<K> {
        Line {
            slot: Mutex::new(Slot {
                reading: None,
                writing: None,
            }),
            connections: AtomicU64::new(0),
            over: Stop::new(),
        }
    }

    /// Makes this the current connection. Where the link is over it is ended instead.
    pub(crate) fn put<R: Wait>(&self, rt: &R, reading: Reading<K>, writing: Writing<K>) {
        let mut slot = self.slot.lock(rt);
        if self.over.is_set() {
            let _ = writing.get_ref().shutdown(Shutdown::Both);
        }
        slot.reading = Some(reading);
        slot.writing = Some(writing);
        self.connections.fetch_add(1, Ordering::SeqCst);
    }

    /// How many connections there were.
    pub(crate) fn connections(&self) -> u64 {
        self.connections.load(Ordering::SeqCst)
    }

    /// Takes the reading half of the current connection, where nobody has.
    pub(crate) fn take_reading<R: Wait>(&self, rt: &R) -> Option<Reading<K>> {
        self.slot.lock(rt).reading.take()
    }

    /// Takes the writing half of the current connection, where nobody has.
    pub(crate) fn take_writing<R: Wait>(&self, rt: &R) -> Option<Writing<K>> {
        self.slot.lock(rt).writing.take()
    }

    /// Ends the link for good. A connection that nobody has taken is ended too.
    pub(crate) fn end<R: Wait>(&self, rt: &R) {
        let slot = self.slot.lock(rt);
        self.over.set();
        if let Some(writing) = &slot.writing {
            let _ = writing.get_ref().shutdown(Shutdown::Both);
        }
    }

    /// Whether the link is over.
    pub(crate) fn is_over(&self) -> bool {
        self.over.is_set()
    }
}
