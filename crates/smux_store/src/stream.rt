//! One stream, as one end keeps it.

ghost use Rattle.std.specs.Prelude.{◌≡◌, ◌++◌, ◌-◌, [], OnOk, OnErr, true, false, take, length};
ghost use Rattle.smux_store.specs.Streams.{Gives, fresh, with_data, without_last};

use crate::answers::Taken;
use crate::byte_queue::ByteQueue;
use chan_values::NoMemory;
use std::alloc::Global;

/// A stream that lives.
#[derive(Drop)]
pub struct Stream {
    /// What came and was not taken.
    pub queue: ByteQueue,
    /// The other end writes no more.
    pub over: bool,
    /// This end writes no more.
    pub shut: bool,
    /// That the other end writes no more was told by a take.
    pub finished: bool,
}

impl Stream {
    /// A stream of which nothing came.
    pub fn new(alloc: Global) -> Stream
        ensures { result ≡ fresh }
    {
        Stream {
            queue: ByteQueue::new(alloc),
            over: false,
            shut: false,
            finished: false,
        }
    }

    /// Takes the next bytes.
    pub fn take(&mut self, max: usize) -> Taken
        ensures { Gives self.old self.new max result }
    {
        if self.queue.len() > 0 {
            match self.queue.take_front(max) {
                Ok(bytes) => Taken::Bytes(bytes),
                Err(_) => Taken::NoMemory,
            }
        } else if self.over {
            self.finished = true;
            Taken::End
        } else {
            Taken::Nothing
        }
    }

    /// Adds data that came.
    pub fn add(&mut self, bytes: &[u8]) -> Result<(), NoMemory>
        ensures ok { OnOk result (self.new ≡ with_data bytes.now self.old) }
        ensures err { OnErr result (self.new ≡ self.old) }
    {
        self.queue.append(bytes)
    }

    /// Lets the last bytes of data go.
    pub fn cut(&mut self, count: usize)
        ensures { self.new ≡ without_last count self.old }
    {
        let keep = self.queue.len().saturating_sub(count);
        self.queue.truncate(keep);
    }
}
