//! One byte of the other end, and the frame that may be whole with it.

ghost use Rattle.std.specs.Prelude.{◌≡◌, ◌≤◌, IfOk, OnErr, None, length, true, false};
ghost use Rattle.smux_acts.specs.Acts.{max_streams};
ghost use Rattle.smux_frames.specs.declared.frame.Frame.{Frame};
ghost use Rattle.smux_frames.specs.Reading.{frame_now};
ghost use Rattle.smux_frames.specs.declared.frame.Cmd.TheVariants as Cmd;
ghost use Rattle.smux_store.specs.Kept.{is_above};
ghost use Rattle.smux_streams.specs.Steps.{IsWhole, LeadsBack, PartGoes, Passes, moved};

use super::{MAX_HELD, MAX_STREAMS, Mux};
use chan_values::NoMemory;
use smux_acts::Event;
use smux_frames::Cmd;
use smux_store::streams::{add, begin, keeps_data, set_over};
use smux_store::trail::{Step, Trail};

impl Mux {
    /// Takes one byte, unless it shows a fault or must wait, and tells whether it did.
    pub(super) fn byte(&mut self, byte: u8, trail: &mut Trail) -> Result<bool, NoMemory>
        ensures passes { IfOk result (λ went.
            Passes self.old self.new byte trail.old.events.items trail.new.events.items went) }
        ensures back { LeadsBack self.old self.new trail.old.steps.items trail.new.steps.items }
    {
        match self.reader.completes(byte) {
            None => self.part(byte),
            Some(coming) => match coming.cmd {
                Cmd::Syn => self.syn(byte, coming.sid, trail),
                Cmd::Fin => self.fin(byte, coming.sid, trail),
                Cmd::Psh => self.psh(byte, coming.sid, coming.length, trail),
                Cmd::Nop => self.pass_over(byte),
            },
        }
    }

    /// Takes a byte with which no frame is whole.
    fn part(&mut self, byte: u8) -> Result<bool, NoMemory>
        requires { frame_now self.old.pending byte ≡ None }
        ensures ok { IfOk result (λ went. PartGoes self.old self.new byte went) }
        ensures err { OnErr result (self.new ≡ self.old) }
    {
        let fault = self.reader.fault_with(byte).is_some();
        self.reader.skip(byte)?;
        Ok(!fault)
    }

    /// Takes a byte with which a frame is whole that does nothing.
    fn pass_over(&mut self, byte: u8) -> Result<bool, NoMemory>
        ensures ok { IfOk result (λ went. (went ≡ true) × (self.new ≡ moved self.old byte)) }
        ensures err { OnErr result (self.new ≡ self.old) }
    {
        self.reader.skip(byte)?;
        Ok(true)
    }

    /// Takes the last byte of a SYN.
    fn syn(&mut self, byte: u8, sid: u32, trail: &mut Trail) -> Result<bool, NoMemory>
        requires { (f : Frame) × IsWhole self.old byte f Cmd.Syn sid (length f.payload) }
        ensures passes { IfOk result (λ went.
            Passes self.old self.new byte trail.old.events.items trail.new.events.items went) }
        ensures back { LeadsBack self.old self.new trail.old.steps.items trail.new.steps.items }
    {
        if self.client || !self.is_new(sid) {
            return self.pass_over(byte);
        }
        if self.living >= MAX_STREAMS {
            return self.refuse(byte, sid, trail);
        }
        trail.reserve()?;
        self.reader.skip(byte)?;
        begin(self.alloc, &mut self.streams, sid)?;
        self.last = Some(sid);
        self.living += 1;
        trail.note(Event::Opened(sid), Step::Began(sid));
        Ok(true)
    }

    /// Refuses a stream: its FIN goes out.
    fn refuse(&mut self, byte: u8, sid: u32, trail: &mut Trail) -> Result<bool, NoMemory>
        requires whole { (f : Frame) × IsWhole self.old byte f Cmd.Syn sid (length f.payload) }
        requires server { self.old.client ≡ false }
        requires fresh { is_above self.old.last sid ≡ true }
        requires many { max_streams ≤ self.old.living }
        ensures passes { IfOk result (λ went.
            Passes self.old self.new byte trail.old.events.items trail.new.events.items went) }
        ensures back { LeadsBack self.old self.new trail.old.steps.items trail.new.steps.items }
    {
        if !self.has_room(0) {
            return Ok(false);
        }
        trail.events.reserve(1)?;
        self.reader.skip(byte)?;
        self.send(Cmd::Fin, sid, &[])?;
        self.last = Some(sid);
        trail.events.push_reserved(Event::Refused(sid));
        Ok(true)
    }

    /// Takes the last byte of a FIN.
    fn fin(&mut self, byte: u8, sid: u32, trail: &mut Trail) -> Result<bool, NoMemory>
        requires { (f : Frame) × IsWhole self.old byte f Cmd.Fin sid (length f.payload) }
        ensures passes { IfOk result (λ went.
            Passes self.old self.new byte trail.old.events.items trail.new.events.items went) }
        ensures back { LeadsBack self.old self.new trail.old.steps.items trail.new.steps.items }
    {
        if !keeps_data(&self.streams, sid) {
            return self.pass_over(byte);
        }
        trail.reserve()?;
        self.reader.skip(byte)?;
        set_over(&mut self.streams, sid, true);
        trail.note(Event::Ended(sid), Step::Ended(sid));
        Ok(true)
    }

    /// Takes the last byte of a PSH with so many bytes of data.
    fn psh(&mut self, byte: u8, sid: u32, size: u16, trail: &mut Trail) -> Result<bool, NoMemory>
        requires { (f : Frame) × IsWhole self.old byte f Cmd.Psh sid size }
        ensures passes { IfOk result (λ went.
            Passes self.old self.new byte trail.old.events.items trail.new.events.items went) }
        ensures back { LeadsBack self.old self.new trail.old.steps.items trail.new.steps.items }
    {
        if size == 0 || !keeps_data(&self.streams, sid) {
            return self.pass_over(byte);
        }
        if self.held + size as u64 > MAX_HELD {
            return Ok(false);
        }
        trail.reserve()?;
        let Some(frame) = self.reader.push(byte)? else {
            return Ok(true);
        };
        add(&mut self.streams, sid, frame.payload.as_slice())?;
        self.held += size as u64;
        trail.note(Event::Ready(sid), Step::Got(sid, size as usize));
        Ok(true)
    }

    /// Whether an id is greater than that of every SYN that came.
    fn is_new(&self, sid: u32) -> bool
        ensures { result ≡ is_above self.now.last sid }
    {
        match self.last {
            None => true,
            Some(last) => last < sid,
        }
    }
}
