//! An end of the replay of a journal.

ghost use Rattle.std.specs.Prelude.{◌≡◌, ◌<◌, ◌≤◌, IfOk, length};
ghost use Rattle.std.specs.Bool.{Decides};
ghost use Rattle.chan_values.specs.Limits.{max_window};
ghost use Rattle.session_audit.specs.Ends.{IsActable};
ghost use Rattle.session_audit.specs.Playing.{AreActable, GoesOn, IsNewSeat, Skips, Tries};

use crate::act::Act;
use crate::marks::Marks;
use crate::reading::Saying;
use crate::step::{Step, advance};
use chan_values::{NoMemory, Side};
use channel_core::End;
use std::alloc::Global;
use std::marker::Model;

/// An end of the replay, with how far its sayings are done.
#[derive(Drop)]
pub struct Seat {
    end: End,
    marks: Marks,
    // The sayings before this place are done, or of the other end.
    next: usize,
    // It can't do its next saying, whatever the other end does.
    stuck: bool,
}

impl Model for Seat {
    ghost use Rattle.session_audit.specs.Ends.{IsActable};
    ghost use Rattle.session_audit.specs.Playing.{SeatState};

    ghost Value = { SeatState };

    ghost view = { λ s. record { end = s.end; marks = s.marks; next = s.next; stuck = s.stuck } };
}

impl Seat {
    /// An end that did nothing.
    pub fn new(alloc: Global, side: Side, window: u64) -> Result<Seat, NoMemory>
        requires low { 1 ≤ window }
        requires high { window ≤ max_window }
        ensures { IfOk result (IsNewSeat window) }
    {
        Ok(Seat {
            end: End::new(alloc, side, window)?,
            marks: Marks::new(alloc),
            next: 0,
            stuck: false,
        })
    }

    /// Goes on to the next saying of this side and does it, if it can, beside the other end.
    pub fn go_on(
        &mut self,
        alloc: Global,
        other: &Seat,
        side: Side,
        sayings: &[Saying],
    ) -> Result<bool, NoMemory>
        requires { AreActable sayings.now }
        ensures { IfOk result (GoesOn side sayings.now self.old self.new other.now) }
    {
        if self.stuck {
            return Ok(false);
        }
        self.next = next_of(sayings, side, self.next);
        if self.next >= sayings.len() {
            return Ok(false);
        }
        match &sayings[self.next].act {
            Some(act) => self.try_act(alloc, other, sayings, act),
            None => {
                self.stuck = true;
                Ok(false)
            }
        }
    }

    /// Does the act of the next saying, if it can.
    fn try_act(
        &mut self,
        alloc: Global,
        other: &Seat,
        sayings: &[Saying],
        act: &Act,
    ) -> Result<bool, NoMemory>
        requires actable { IsActable act.now }
        requires within { self.old.next < length sayings.now }
        ensures { IfOk result (Tries self.old self.new other.now sayings.now act.now) }
    {
        let step = advance(
            alloc,
            &mut self.end,
            &self.marks,
            &other.marks,
            sayings,
            act,
        )?;
        match step {
            Step::Done => {
                self.marks.note(self.next, act)?;
                self.next += 1;
                Ok(true)
            }
            Step::NotShown => {
                self.stuck = true;
                Ok(false)
            }
            Step::Unheard => Ok(false),
        }
    }

    /// The end, for a look.
    pub fn end(&self) -> &End
        ensures { result.now ≡ self.now.end }
    {
        &self.end
    }

    /// The place before which all sayings of its side are done.
    pub fn next(&self) -> usize
        ensures { result ≡ self.now.next }
    {
        self.next
    }
}

/// The place of the next saying of a side, from a place on, or the end of the list.
fn next_of(sayings: &[Saying], side: Side, from: usize) -> usize
    ensures { Skips side sayings.now from result }
{
    let mut at = from;
    while at < sayings.len() {
        if is_same_side(sayings[at].side, side) {
            return at;
        }
        at += 1;
    }
    at
}

/// Whether two sides are the same.
fn is_same_side(a: Side, b: Side) -> bool
    ensures { Decides result (a ≡ b) }
{
    match a {
        Side::Plugin => match b {
            Side::Plugin => true,
            Side::Agent => false,
        },
        Side::Agent => match b {
            Side::Plugin => false,
            Side::Agent => true,
        },
    }
}
