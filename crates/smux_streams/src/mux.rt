//! One end of a link that carries streams.
//!
//! `open`, `write` and `close` add frames to the outgoing bytes, and `out` polls for them. `feed` brings
//! bytes of the other end; its events say which streams began, have data and ended. `take` polls for
//! the data of one stream. A driver carries what `out` gives to the other end's `feed`, in order, and
//! keeps what `feed` leaves for the next call.
//!
//! ```text
//!            open, or Opened             close                     take answers End
//!   no stream  ------------>  open both  ------>  half-closed here  -------------->  gone
//!                                 |                                                   ^
//!                                 | take answers End                                  | close
//!                                 v                                                   |
//!                          half-closed there  ----------------------------------------+
//! ```

ghost use Rattle.std.specs.Prelude.{◌≡◌, ◌≢◌, ◌<◌, ◌≤◌, ◌++◌, ◌+◌, [], IfOk, IfErr, OnOk, OnErr, IfSome, Some, None, ℕ, length, true, false, nat_le};
ghost use Rattle.std.specs.Result.{result_ok};
ghost use Rattle.smux_frames.specs.Spelling.{max_written_data, spelling};
ghost use Rattle.smux_frames.specs.declared.frame.Cmd.TheVariants as Cmd;
ghost use Rattle.smux_streams.specs.Call.{Opens, Writes, Closes, Outs, Feeds, Takes, Holds};
ghost use Rattle.smux_streams.specs.Limits.{max_held, max_out};
ghost use Rattle.smux_streams.specs.Stands.{MuxState, Stands, Follows, Forgets};
ghost use Rattle.smux_store.specs.Streams.{held_after};

mod byte;
mod feed;

use crate::answers::Write;
use chan_values::{Bytes, NoMemory};
use smux_frames::{Cmd, Frame, FrameReader, HEADER_LEN, MAX_WRITTEN_DATA, encode_frame};
use smux_store::streams::{begin, bury, give, shut};
use smux_store::{ByteQueue, Open, Stream, Taken};
use std::alloc::Global;
use std::collections::BTreeMap;
use std::marker::Model;

/// How many streams may live at once.
pub const MAX_STREAMS: usize = 1024;

/// The most outgoing bytes.
pub const MAX_OUT: usize = 1_048_576;

/// The most bytes that wait to be taken, of all streams together.
pub const MAX_HELD: u64 = 4_194_304;

/// How many streams a client opens in its life: one for each odd id from 3 on.
const MAX_OPENED: u64 = 2_147_483_647;

/// One end of the link.
#[derive(Drop)]
pub struct Mux {
    alloc: Global,
    client: bool,
    reader: FrameReader,
    // How many streams were opened here.
    begun: u64,
    // The greatest id of the SYN frames that came.
    last: Option<u32>,
    out: ByteQueue,
    streams: BTreeMap<u32, Stream>,
    living: usize,
    held: u64,
}

impl Model for Mux {
    ghost use Rattle.std.specs.Prelude.{length};
    ghost use Rattle.smux_streams.specs.Limits.{IsWithinLimits};
    ghost use Rattle.smux_streams.specs.Stands.{MuxState};

    ghost Value = { MuxState };

    ghost view = { λ m. record {
      client = m.client;
      pending = m.reader;
      begun = m.begun;
      last = m.last;
      out = m.out;
      streams = m.streams.entries;
      living = m.living;
      held = m.held;
    } };

    ghost invariant = { λ m. IsWithinLimits m.living (length m.out) m.held m.begun };
}

impl Mux {
    /// A client, which opens streams.
    pub fn client(alloc: Global) -> Mux
        ensures { Stands true result [] }
    {
        Mux::new(alloc, true)
    }

    /// A server, for which the other end opens streams.
    pub fn server(alloc: Global) -> Mux
        ensures { Stands false result [] }
    {
        Mux::new(alloc, false)
    }

    /// An end at the beginning of a link.
    fn new(alloc: Global, client: bool) -> Mux
        ensures { Stands client result [] }
    {
        Mux {
            alloc,
            client,
            reader: FrameReader::new(alloc),
            begun: 0,
            last: None,
            out: ByteQueue::new(alloc),
            streams: BTreeMap::new(alloc),
            living: 0,
            held: 0,
        }
    }

    /// Opens a stream. The ids are 3, 5, 7 and so on.
    pub fn open(&mut self) -> Open
        requires { self.old.client ≡ true }
        ensures { Follows self.old self.new (Opens result) }
    {
        if self.begun >= MAX_OPENED {
            return Open::IdsSpent;
        }
        if self.living >= MAX_STREAMS {
            return Open::TooMany;
        }
        if !self.has_room(0) {
            return Open::Full;
        }
        let before = self.out.len();
        let sid = 2 * self.begun as u32 + 3;
        let Ok(()) = self.send(Cmd::Syn, sid, &[]) else {
            return Open::NoMemory;
        };
        let Ok(()) = begin(self.alloc, &mut self.streams, sid) else {
            self.out.truncate(before);
            return Open::NoMemory;
        };
        self.begun += 1;
        self.living += 1;
        Open::Sid(sid)
    }

    /// Writes bytes to a stream, in one frame.
    pub fn write(&mut self, sid: u32, bytes: &[u8]) -> Write
        requires some { 0 < length bytes.now }
        requires small { length bytes.now ≤ max_written_data }
        ensures { Follows self.old self.new (Writes sid bytes.now result) }
    {
        let Some(stream) = self.streams.get(&sid) else {
            return Write::Unknown;
        };
        if stream.shut {
            return Write::Closed;
        }
        if !self.has_room(bytes.len()) {
            return Write::Full;
        }
        match self.send(Cmd::Psh, sid, bytes) {
            Ok(()) => Write::Done,
            Err(NoMemory) => Write::NoMemory,
        }
    }

    /// Ends what this end writes to a stream. Its bytes can still be taken.
    pub fn close(&mut self, sid: u32) -> Write
        ensures { Follows self.old self.new (Closes sid result) }
    {
        let Some(stream) = self.streams.get(&sid) else {
            return Write::Unknown;
        };
        if stream.shut {
            return Write::Closed;
        }
        if !self.has_room(0) {
            return Write::Full;
        }
        let Ok(()) = self.send(Cmd::Fin, sid, &[]) else {
            return Write::NoMemory;
        };
        shut(&mut self.streams, sid);
        self.forget(sid);
        Write::Done
    }

    /// The first outgoing bytes, at most `max`. They leave.
    pub fn out(&mut self, max: usize) -> Result<Bytes, NoMemory>
        ensures follows { Follows self.old self.new (Outs max (result_ok result)) }
        ensures bounded { length self.old.out ≤ max_out }
    {
        self.out.take_front(max)
    }

    /// The next bytes of a stream, at most `max`.
    pub fn take(&mut self, sid: u32, max: usize) -> Taken
        requires { 0 < max }
        ensures { Follows self.old self.new (Takes sid max result) }
    {
        let taken = give(&mut self.streams, sid, max);
        self.held = held_after(self.held, &taken);
        self.forget(sid);
        taken
    }

    /// How many bytes wait to be taken, of all streams.
    pub fn held(&self) -> u64
        ensures follows { Follows self.now self.now (Holds result) }
        ensures bounded { result ≤ max_held }
    {
        self.held
    }

    /// Lets a stream go that is closed here and of which the end was told.
    fn forget(&mut self, sid: u32)
        ensures { Forgets self.old self.new sid }
    {
        if bury(&mut self.streams, sid) {
            self.living = self.living.saturating_sub(1);
        }
    }

    /// Whether the outgoing bytes have room for a frame with so many bytes of data.
    fn has_room(&self, size: usize) -> bool
        requires { size ≤ max_written_data }
        ensures { result ≡ nat_le (length self.now.out + (8 + size)) max_out }
    {
        self.out.len() + (HEADER_LEN + size) <= MAX_OUT
    }

    /// Adds a frame to the outgoing bytes.
    fn send(&mut self, cmd: Cmd, sid: u32, payload: &[u8]) -> Result<(), NoMemory>
        requires small { length payload.now ≤ max_written_data }
        requires empty { cmd ≢ Cmd.Psh → payload.now ≡ [] }
        requires room { length self.old.out + (8 + length payload.now) ≤ max_out }
        ensures ok { OnOk result (self.new ≡ record self.old {
          out = self.old.out ++ spelling (record { cmd = cmd; sid = sid; payload = payload.now });
        }) }
        ensures err { OnErr result (self.new ≡ self.old) }
    {
        let payload = Bytes::new(Vec::from_slice(self.alloc, payload)?);
        let bytes = encode_frame(self.alloc, &Frame { cmd, sid, payload })?;
        self.out.append(bytes.as_slice())
    }
}

/// How many bytes wait after a take.
fn held_after(held: u64, taken: &Taken) -> u64
    ensures { result ≡ held_after held taken.now }
{
    match taken {
        Taken::Bytes(bytes) => held.saturating_sub(bytes.len() as u64),
        _ => held,
    }
}
