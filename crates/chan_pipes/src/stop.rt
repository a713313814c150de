//! What ends the reads of a session.

use libc::net::{POLLIN, POLLOUT, poll};
use libc::types::pollfd;
use std::os::fd::AsRawFd;
use std::sync::atomic::{AtomicBool, Ordering};

/// How often a wait looks whether the session is over, in milliseconds.
const LOOK_MILLIS: i32 = 200;

/// Whether a session is over. All that read for it share one: once it is set, what waits for bytes ends
/// within a fifth of a second.
#[derive(Debug, Drop)]
pub struct Stop {
    over: AtomicBool,
}

impl Stop {
    /// The session is not over.
    pub const fn new() -> Stop {
        Stop {
            over: AtomicBool::new(false),
        }
    }

    /// Says that the session is over, for good.
    pub fn set(&self) {
        self.over.store(true, Ordering::SeqCst);
    }

    /// Whether the session is over.
    pub fn is_set(&self) -> bool {
        self.over.load(Ordering::SeqCst)
    }

    /// Waits until there is something to read, or an error to be told. It answers false where the session is
    /// over.
    pub fn wait_to_read<R: AsRawFd>(&self, reader: &R) -> bool {
        for _ in 0..u64::MAX {
            if self.is_set() {
                return false;
            }
            if is_ready(reader, POLLIN, LOOK_MILLIS) {
                return true;
            }
        }
        false
    }

    /// Waits until something can be written, or an error is to be told. It answers false where the session is
    /// over and nothing could be written for a while.
    pub fn wait_to_write<W: AsRawFd>(&self, writer: &W) -> bool {
        for _ in 0..u64::MAX {
            if is_ready(writer, POLLOUT, LOOK_MILLIS) {
                return true;
            }
            if self.is_set() {
                return false;
            }
        }
        false
    }
}

/// Whether a descriptor has this to tell, or an error, within so many milliseconds (POSIX, poll).
pub(crate) fn is_ready<F: AsRawFd>(file: &F, events: i16, millis: i32) -> bool {
    let mut asked = [pollfd {
        fd: file.as_raw_fd(),
        events,
        revents: 0,
    }];
    poll(&mut asked, millis) > 0
}
