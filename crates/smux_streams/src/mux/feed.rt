//! The bytes of the other end.

ghost use Rattle.std.specs.Prelude.{◌≡◌, ◌<◌, ◌≤◌, [], IfOk, IfSome, OnErr, Some, None, length};
ghost use Rattle.smux_acts.specs.Acts.{max_streams};
ghost use Rattle.smux_streams.specs.Call.{Feeds};
ghost use Rattle.smux_streams.specs.Limits.{max_held};
ghost use Rattle.smux_streams.specs.Stands.{Follows};
ghost use Rattle.smux_streams.specs.Steps.{Absorbs, KeepsFault, LeadsBack, Restores, Runs};

use super::Mux;
use crate::answers::Fed;
use chan_values::NoMemory;
use smux_frames::FrameReader;
use smux_store::Events;
use smux_store::trail::{Trail, walk_back};

/// What is put back where a feed finds no memory.
#[derive(Drop)]
struct Mark {
    reader: FrameReader,
    last: Option<u32>,
    out: usize,
    living: usize,
    held: u64,
}

impl Mux {
    /// Takes bytes of the other end. It takes all of them but in three cases: it stops at a fault, and it
    /// leaves the last byte of a PSH whose data cannot be held, and of a SYN whose refusal finds no room
    /// in the outgoing bytes. An `Err` changes nothing. After a fault every later feed takes nothing and
    /// gives the same fault.
    pub fn feed(&mut self, bytes: &[u8]) -> Result<Fed, NoMemory>
        ensures fed { IfOk result (λ fed. Follows self.old self.new (Feeds bytes.now (Some fed))) }
        ensures err { OnErr result (Follows self.old self.new (Feeds bytes.now None)) }
        ensures kept { IfSome self.old.pending.fault (λ fault. KeepsFault self.old self.new fault result) }
    {
        match self.reader.fault() {
            Some(fault) => Ok(Fed {
                consumed: 0,
                events: Events::new(Vec::new(self.alloc)),
                fault: Some(fault),
            }),
            None => self.feed_sound(bytes),
        }
    }

    /// Takes bytes where no fault came yet.
    fn feed_sound(&mut self, bytes: &[u8]) -> Result<Fed, NoMemory>
        ensures fed { IfOk result (λ fed. Follows self.old self.new (Feeds bytes.now (Some fed))) }
        ensures err { OnErr result (Follows self.old self.new (Feeds bytes.now None)) }
    {
        if bytes.len() < self.reader.missing() {
            self.reader.absorb(bytes)?;
            return Ok(Fed {
                consumed: bytes.len(),
                events: Events::new(Vec::new(self.alloc)),
                fault: self.reader.fault(),
            });
        }
        self.feed_frames(bytes)
    }

    /// Takes bytes with which a frame may be whole.
    fn feed_frames(&mut self, bytes: &[u8]) -> Result<Fed, NoMemory>
        ensures fed { IfOk result (λ fed. Follows self.old self.new (Feeds bytes.now (Some fed))) }
        ensures err { OnErr result (Follows self.old self.new (Feeds bytes.now None)) }
    {
        let mark = Mark {
            reader: self.reader.copy()?,
            last: self.last,
            out: self.out.len(),
            living: self.living,
            held: self.held,
        };
        let mut trail = Trail::new(self.alloc);
        match self.pass(bytes, &mut trail) {
            Ok(consumed) => Ok(Fed {
                consumed,
                events: Events::new(trail.events),
                fault: self.reader.fault(),
            }),
            Err(NoMemory) => {
                self.restore(mark, trail);
                Err(NoMemory)
            }
        }
    }

    /// Puts back what a feed changed.
    fn restore(&mut self, mark: Mark, trail: Trail)
        requires living { mark.living ≤ max_streams }
        requires held { mark.held ≤ max_held }
        ensures { Restores self.old self.new mark trail.steps.items }
    {
        walk_back(&mut self.streams, trail.steps);
        self.reader = mark.reader;
        self.last = mark.last;
        self.out.truncate(mark.out);
        self.living = mark.living;
        self.held = mark.held;
    }

    /// Takes bytes as far as they go, and tells how many.
    fn pass(&mut self, bytes: &[u8], trail: &mut Trail) -> Result<usize, NoMemory>
        requires events { trail.old.events.items ≡ [] }
        requires steps { trail.old.steps.items ≡ [] }
        ensures runs { IfOk result (λ count.
            Runs self.old self.new bytes.now trail.new.events.items count) }
        ensures back { OnErr result (LeadsBack self.old self.new [] trail.new.steps.items) }
    {
        let mut place = 0;
        while place < bytes.len() {
            place += self.absorb(&bytes[place..])?;
            if !self.byte(bytes[place], trail)? {
                return Ok(place);
            }
            place += 1;
        }
        Ok(bytes.len())
    }

    /// Takes data of the coming frame at once, but neither the last byte of the frame nor that of the
    /// piece, and tells how many bytes it took.
    fn absorb(&mut self, bytes: &[u8]) -> Result<usize, NoMemory>
        requires { 0 < length bytes.now }
        ensures ok { IfOk result (λ count. Absorbs self.old self.new bytes.now count) }
        ensures err { OnErr result (self.new ≡ self.old) }
    {
        let count = self.reader.missing().saturating_sub(1).min(bytes.len() - 1);
        self.reader.absorb(&bytes[..count])?;
        Ok(count)
    }
}
