//! The reader of frames.

ghost use Rattle.std.specs.Prelude.{◌≡◌, ◌-◌, ◌≤◌, IfOk, OnOk, OnErr, [], ◌∷◌, ◌++◌, length};
ghost use Rattle.std.specs.Option.{option_map};
ghost use Rattle.smux_frames.specs.Reading.{beginning, frame_now, fault_now, pending_now, read_on};
ghost use Rattle.smux_frames.specs.Coming.{absorbed, coming_of, missing};

use crate::coming::Coming;
use crate::fault::FrameFault;
use crate::frame::{Frame, Frames};
use crate::parse;
use chan_values::NoMemory;
use std::alloc::Global;
use std::marker::Model;

/// What a piece of the stream gave.
#[derive(Debug, Drop)]
pub struct Framed {
    /// The frames that are whole with it, in order.
    pub frames: Frames,
    /// The fault that it shows, or that was shown before.
    pub fault: Option<FrameFault>,
}

/// Reads frames from a stream of bytes in any pieces. After a fault every later call gives the same fault
/// and no frames.
#[derive(Drop)]
pub struct FrameReader {
    alloc: Global,
    // The bytes of the frame that is coming.
    rest: Vec<u8>,
    // Where it begins.
    start: u64,
    fault: Option<FrameFault>,
}

impl Model for FrameReader {
    ghost use Rattle.smux_frames.specs.Reading.{Pending};

    ghost Value = { Pending };

    ghost view = { λ r. record { rest = r.rest.items; start = r.start; fault = r.fault } };
}

impl FrameReader {
    /// A reader at the beginning of a stream.
    pub fn new(alloc: Global) -> FrameReader
        ensures { result ≡ beginning }
    {
        FrameReader {
            alloc,
            rest: Vec::new(alloc),
            start: 0,
            fault: None,
        }
    }

    /// Takes a piece of the stream, and gives the frames that are whole with it. An `Err` changes nothing.
    #[tactic(auto, using(crate::proofs::DataLemmas::absorbed_reading))]
    pub fn feed(&mut self, bytes: &[u8]) -> Result<Framed, NoMemory>
        ensures pending { OnOk result (self.new ≡ (read_on self.old bytes.now).pending) }
        ensures frames { IfOk result (λ f. f.frames ≡ (read_on self.old bytes.now).frames) }
        ensures fault { IfOk result (λ f. f.fault ≡ (read_on self.old bytes.now).pending.fault) }
        ensures err { OnErr result (self.new ≡ self.old) }
    {
        if bytes.len() < self.missing() {
            self.absorb(bytes)?;
            return Ok(Framed {
                frames: Frames::new(Vec::new(self.alloc)),
                fault: self.fault,
            });
        }
        self.read(bytes)
    }

    /// Takes a piece with which a frame may be whole, on a copy.
    fn read(&mut self, bytes: &[u8]) -> Result<Framed, NoMemory>
        ensures pending { OnOk result (self.new ≡ (read_on self.old bytes.now).pending) }
        ensures frames { IfOk result (λ f. f.frames ≡ (read_on self.old bytes.now).frames) }
        ensures fault { IfOk result (λ f. f.fault ≡ (read_on self.old bytes.now).pending.fault) }
        ensures err { OnErr result (self.new ≡ self.old) }
    {
        let mut reader = self.copy()?;
        let mut frames = Vec::new(self.alloc);
        let mut at = 0;
        while at < bytes.len() {
            let data = reader.missing().saturating_sub(1).min(bytes.len() - at - 1);
            reader.absorb(&bytes[at..at + data])?;
            at += data;
            if let Some(whole) = reader.push(bytes[at])? {
                frames.push(whole)?;
            }
            at += 1;
        }
        let fault = reader.fault;
        *self = reader;
        Ok(Framed {
            frames: Frames::new(frames),
            fault,
        })
    }

    /// The head of the frame that would be whole if this byte came next.
    pub fn completes(&self, byte: u8) -> Option<Coming>
        ensures { result ≡ option_map coming_of (frame_now self.now byte) }
    {
        if self.fault_with(byte).is_some() {
            return None;
        }
        parse::coming(self.rest.as_slice(), byte)
    }

    /// The fault that was shown.
    pub fn fault(&self) -> Option<FrameFault>
        ensures { result ≡ self.now.fault }
    {
        self.fault
    }

    /// The fault that was shown, or that this byte would show.
    pub fn fault_with(&self, byte: u8) -> Option<FrameFault>
        ensures { result ≡ fault_now self.now byte }
    {
        match self.fault {
            Some(kept) => Some(kept),
            None => parse::fault(self.start, self.rest.as_slice(), byte),
        }
    }

    /// Takes one byte, and gives the frame that is whole with it.
    pub fn push(&mut self, byte: u8) -> Result<Option<Frame>, NoMemory>
        ensures pending { OnOk result (self.new ≡ pending_now self.old byte) }
        ensures frame { IfOk result (λ whole. whole ≡ frame_now self.old byte) }
        ensures err { OnErr result (self.new ≡ self.old) }
    {
        if let Some(shown) = self.fault_with(byte) {
            self.fault = Some(shown);
            return Ok(None);
        }
        self.rest.push(byte)?;
        match parse::frame(self.alloc, self.rest.as_slice()) {
            Err(e) => {
                let _byte = self.rest.pop();
                Err(e)
            }
            Ok(None) => Ok(None),
            Ok(Some(whole)) => {
                self.start = self.start.saturating_add(self.rest.len() as u64);
                self.rest.clear();
                Ok(Some(whole))
            }
        }
    }

    /// Takes one byte. The frame that is whole with it is passed over, which takes no memory.
    pub fn skip(&mut self, byte: u8) -> Result<(), NoMemory>
        ensures pending { OnOk result (self.new ≡ pending_now self.old byte) }
        ensures err { OnErr result (self.new ≡ self.old) }
    {
        if let Some(shown) = self.fault_with(byte) {
            self.fault = Some(shown);
            return Ok(());
        }
        if parse::coming(self.rest.as_slice(), byte).is_none() {
            self.rest.push(byte)?;
            return Ok(());
        }
        self.start = self.start.saturating_add(self.rest.len() as u64 + 1);
        self.rest.clear();
        Ok(())
    }

    /// How many bytes of data the frame that is coming lacks; 0 where its header is not whole yet.
    pub fn missing(&self) -> usize
        ensures { result ≡ missing self.now }
    {
        if self.fault.is_some() {
            return 0;
        }
        parse::missing(self.rest.as_slice())
    }

    /// Takes bytes at once that are data of the frame that is coming, but not its last.
    pub fn absorb(&mut self, bytes: &[u8]) -> Result<(), NoMemory>
        requires { length bytes.now ≤ missing self.old - 1 }
        ensures ok { OnOk result (self.new ≡ absorbed self.old bytes.now) }
        ensures err { OnErr result (self.new ≡ self.old) }
    {
        self.rest.extend_from_slice(bytes)?;
        Ok(())
    }

    /// The same reader a second time.
    pub fn copy(&self) -> Result<FrameReader, NoMemory>
        ensures { IfOk result (λ copied. copied ≡ self.now) }
    {
        let rest = Vec::from_slice(self.alloc, self.rest.as_slice())?;
        Ok(FrameReader {
            alloc: self.alloc,
            rest,
            start: self.start,
            fault: self.fault,
        })
    }
}
