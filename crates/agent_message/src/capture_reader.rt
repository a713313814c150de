//! The reader of a capture.

ghost use Rattle.std.specs.Prelude.{◌≡◌, ℕ, ◌+◌, ◌-◌, ◌<◌, ◌≤◌, List, [], ◌++◌, length, IfOk, IfSome, IsOkAnd, OnOk, OnErr, None, Some, option_to_list};
ghost use Rattle.agent_message.specs.Captures.{IsCapture};
ghost use Rattle.agent_message.specs.CaptureReading.{StandsFor, missing};
ghost use Rattle.agent_message.specs.declared.message.Message.{Message};

use crate::capture::{Front, SIZE_LENGTH, front_of};
use crate::capture_fault::{CaptureCause, CaptureFault};
use crate::field::u32_at;
use crate::message::{Message, Messages};
use chan_values::NoMemory;
use std::alloc::Global;
use std::marker::Model;

/// What a part of a capture gave.
#[derive(Debug, Drop)]
pub struct Captured {
    /// The messages whose pieces are whole with it, in order.
    pub messages: Messages,
    /// The fault that it shows, or that was shown before.
    pub fault: Option<CaptureFault>,
}

/// Reads a capture in parts, wherever it is cut. It keeps the bytes of the coming piece alone.
///
/// After a fault every later part gives the same fault and no messages.
#[derive(Drop)]
pub struct CaptureReader {
    alloc: Global,
    // What has come of the next piece.
    rest: Vec<u8>,
    // Where that piece begins.
    start: u64,
    fault: Option<CaptureFault>,
    // A part with fewer bytes leaves that piece unfinished. 0 where that is not known.
    wants: usize,
}

impl Model for CaptureReader {
    ghost use Rattle.std.specs.Prelude.{◌≡◌, ◌<◌, None};
    ghost use Rattle.agent_message.specs.CaptureReading.{Pending, missing};

    ghost Value = { Pending };

    ghost view = { λ r. record { rest = r.rest.items; start = r.start; fault = r.fault } };

    ghost invariant = { λ r. (0 < missing r.rest.items)
        × (0 < r.wants → (r.fault ≡ None) × (r.wants ≡ missing r.rest.items)) };
}

impl CaptureReader {
    /// A reader at the beginning of a capture.
    pub fn new(alloc: Global) -> CaptureReader
        ensures { StandsFor result [] [] }
    {
        CaptureReader {
            alloc,
            rest: Vec::new(alloc),
            start: 0,
            fault: None,
            wants: SIZE_LENGTH,
        }
    }

    /// Takes the next part of the capture. On want of memory nothing changes.
    pub fn feed(&mut self, bytes: &[u8]) -> Result<Captured, NoMemory>
        ensures read { (before : List ℕ) (given : List Message) → StandsFor self.old before given
            → IfOk result (λ captured.
            StandsFor self.new (before ++ bytes.now) (given ++ captured.messages)) }
        ensures fault { IfOk result (λ captured. captured.fault ≡ self.new.fault) }
        ensures kept { IfSome self.old.fault (λ fault. (self.new ≡ self.old)
            × IsOkAnd result (λ captured.
            (captured.fault ≡ Some fault) × (captured.messages ≡ []))) }
        ensures err { OnErr result (self.new ≡ self.old) }
    {
        if bytes.len() < self.wants {
            append(&mut self.rest, bytes)?;
            self.wants -= bytes.len();
            return Ok(Captured {
                messages: Messages::none(self.alloc),
                fault: None,
            });
        }
        if self.fault.is_some() {
            return Ok(self.nothing());
        }
        self.read(bytes)
    }

    /// The fault that was shown, or else that of a capture which ends in a piece.
    pub fn end(&self) -> Option<CaptureFault>
        ensures { (bytes : List ℕ) (given : List Message) → StandsFor self.now bytes given
            → IsCapture bytes given result }
    {
        if self.fault.is_some() || self.rest.is_empty() {
            return self.fault;
        }
        Some(CaptureFault {
            at: self.start,
            cause: CaptureCause::Cut(self.rest.len()),
        })
    }

    /// Takes a part with which a piece or its length may be whole, on a copy.
    fn read(&mut self, bytes: &[u8]) -> Result<Captured, NoMemory>
        requires sound { self.old.fault ≡ None }
        ensures read { (before : List ℕ) (given : List Message) → StandsFor self.old before given
            → IfOk result (λ captured.
            StandsFor self.new (before ++ bytes.now) (given ++ captured.messages)) }
        ensures fault { IfOk result (λ captured. captured.fault ≡ self.new.fault) }
        ensures err { OnErr result (self.new ≡ self.old) }
    {
        let mut reader = self.copy()?;
        let mut messages = Vec::new(self.alloc);
        let mut coming = bytes;
        while !coming.is_empty() && reader.fault.is_none() {
            let (part, behind) = coming.split_at(reader.missing().min(coming.len()));
            if let Some(message) = reader.take(part)? {
                messages.push(message)?;
            }
            coming = behind;
        }
        reader.settle();
        let fault = reader.fault;
        *self = reader;
        Ok(Captured {
            messages: Messages::new(messages),
            fault,
        })
    }

    /// Takes a part that goes at most to where the length of the coming piece, or the piece, is
    /// whole, and gives its message where it is.
    fn take(&mut self, part: &[u8]) -> Result<Option<Message>, NoMemory>
        requires sound { self.old.fault ≡ None }
        requires within { length part.now ≤ missing self.old.rest }
        ensures { (before : List ℕ) (given : List Message) → StandsFor self.old before given
            → IfOk result (λ whole.
            StandsFor self.new (before ++ part.now) (given ++ option_to_list whole)) }
    {
        let have = self.rest.len();
        self.wants = 0;
        self.rest.extend_from_slice(part)?;
        match front_of(self.alloc, &self.rest) {
            Err(NoMemory) => {
                self.rest.truncate(have);
                Err(NoMemory)
            }
            Ok(Front::Unfinished) => Ok(None),
            Ok(Front::Whole(message)) => {
                self.start = self.start.saturating_add(self.rest.len() as u64);
                self.rest.clear();
                Ok(Some(message))
            }
            Ok(Front::Broken(cause)) => {
                self.fault = Some(CaptureFault {
                    at: self.start,
                    cause,
                });
                self.rest = Vec::new(self.alloc);
                Ok(None)
            }
        }
    }

    /// How many bytes the coming piece lacks, or its length, where that is not whole.
    fn missing(&self) -> usize
        ensures { result ≡ missing self.now.rest }
    {
        let have = self.rest.len();
        if have < SIZE_LENGTH {
            return SIZE_LENGTH - have;
        }
        let whole = SIZE_LENGTH + u32_at(&self.rest, 0) as usize;
        whole.saturating_sub(have)
    }

    /// Finds how many bytes the coming piece lacks, where no fault was shown.
    fn settle(&mut self)
        ensures { self.new ≡ self.old }
    {
        self.wants = if self.fault.is_some() {
            0
        } else {
            self.missing()
        };
    }

    /// No messages, and the fault that was shown.
    fn nothing(&self) -> Captured
        ensures messages { result.messages ≡ [] }
        ensures fault { result.fault ≡ self.now.fault }
    {
        Captured {
            messages: Messages::none(self.alloc),
            fault: self.fault,
        }
    }

    /// The same reader a second time.
    fn copy(&self) -> Result<CaptureReader, NoMemory>
        ensures { IfOk result (λ copied. copied ≡ self.now) }
    {
        let rest = Vec::from_slice(self.alloc, self.rest.as_slice())?;
        Ok(CaptureReader {
            alloc: self.alloc,
            rest,
            start: self.start,
            fault: self.fault,
            wants: 0,
        })
    }
}

/// Puts bytes behind others; a single byte goes a shorter way.
fn append(rest: &mut Vec<u8>, bytes: &[u8]) -> Result<(), NoMemory>
    ensures ok { OnOk result (rest.new.items ≡ rest.old.items ++ bytes.now) }
    ensures err { OnErr result (rest.new.items ≡ rest.old.items) }
{
    match bytes {
        [byte] => rest.push(*byte)?,
        _ => rest.extend_from_slice(bytes)?,
    }
    Ok(())
}
