//! A generated script on its way, line after line.

ghost use Rattle.std.specs.Prelude.{◌≡◌, ◌≤◌, ◌<◌, ◌+◌, ◌-◌, ◌^◌, [], ℕ, IfOk, OnOk};
ghost use Rattle.std.specs.List.{fold};
ghost use Rattle.chan_values.specs.Limits.{max_window};
ghost use Rattle.lab_run.specs.Run.{Progress, progress, progress_after};
ghost use Rattle.lab_run.specs.Steps.{world_of};
ghost use Rattle.lab_script.specs.declared.command.Command.TheVariants as Command;
ghost use Rattle.lab_gen.specs.Ends.{IsAt, IsEnds, IsGenerated};
ghost use Rattle.lab_gen.specs.Generator.{item_of, lines_of, round_lines};

use crate::ends::Ends;
use crate::round::Round;
use chan_values::{Bytes, Item, NoMemory, Side};
use lab_run::Context;
use lab_script::{Action, Which};
use std::alloc::Global;

/// Where a run stands: its ends, and the moment and the number of its next line.
#[derive(Drop)]
pub struct Run {
    pub context: Context,
    pub ends: Ends,
}

impl Run {
    /// Before the first line.
    pub fn new(alloc: Global, window: u64) -> Result<Run, NoMemory>
        requires low { 1 ≤ window }
        requires high { window ≤ max_window }
        ensures begun { IfOk result (IsAt window (progress window [])) }
        ensures first { IfOk result (λ run. run.context.line ≡ 1) }
    {
        let context = Context {
            alloc,
            window,
            moment: 0,
            line: 1,
        };
        Ok(Run {
            context,
            ends: Ends::new(alloc, window)?,
        })
    }

    /// Does the lines of a round.
    pub fn round(&mut self, round: u64, what: Round) -> Result<(), NoMemory>
        requires early { round ≤ 1000000 }
        requires room { self.old.context.line < 2 ^ 63 }
        ensures made { (w : ℕ) (p : Progress) → IsAt w p self.old
            → OnOk result (IsAt w (fold (progress_after w) p (round_lines round what)) self.new) }
        ensures few { OnOk result (self.new.context.line ≤ self.old.context.line + 5) }
    {
        self.at(100 * round);
        match what {
            Round::Put(side) => self.put(side, round),
            Round::Send(side) => {
                let which = Which::Last;
                self.line(side, Action::Pull)?;
                self.line(side.other(), Action::Hear { which })
            }
            Round::Lose(side) => {
                self.line(side, Action::Pull)?;
                self.line(side, Action::Tick)
            }
            Round::Reconnect => self.reconnect(),
        }
    }

    /// The line that sets the moment.
    fn at(&mut self, moment: u64)
        requires { self.old.context.line < 2 ^ 64 - 1 }
        ensures made { (w : ℕ) (p : Progress) → IsAt w p self.old
            → IsAt w (progress_after w p (Command.At moment)) self.new }
        ensures next { self.new.context.line ≡ self.old.context.line + 1 }
    {
        self.context.moment = moment;
        self.context.line += 1;
    }

    /// A line that asks something of one end.
    fn line(&mut self, side: Side, action: Action) -> Result<(), NoMemory>
        requires asked { IsGenerated action }
        requires room { self.old.context.line < 2 ^ 64 - 1 }
        ensures made { (w : ℕ) (p : Progress) → IsAt w p self.old
            → OnOk result (IsAt w (progress_after w p (Command.On side action)) self.new) }
        ensures next { OnOk result (self.new.context.line ≡ self.old.context.line + 1) }
    {
        self.ends.step(&self.context, side, action)?;
        self.context.line += 1;
        Ok(())
    }

    /// The line of a put.
    fn put(&mut self, side: Side, round: u64) -> Result<(), NoMemory>
        requires { self.old.context.line < 2 ^ 64 - 1 }
        ensures made { (w : ℕ) (p : Progress) → IsAt w p self.old
            → let lines = lines_of round (Round.Put side) in
            OnOk result (IsAt w (fold (progress_after w) p lines) self.new) }
        ensures next { OnOk result (self.new.context.line ≡ self.old.context.line + 1) }
    {
        let item = item_of(self.context.alloc, round)?;
        self.line(side, Action::Put { item })
    }

    /// The lines of a reconnection.
    fn reconnect(&mut self) -> Result<(), NoMemory>
        requires { self.old.context.line < 2 ^ 64 - 4 }
        ensures made { (w round : ℕ) (p : Progress) → IsAt w p self.old
            → let lines = lines_of round Round.Reconnect in
            OnOk result (IsAt w (fold (progress_after w) p lines) self.new) }
        ensures next { OnOk result (self.new.context.line ≡ self.old.context.line + 4) }
    {
        self.line(Side::Plugin, Action::Lost)?;
        self.line(Side::Agent, Action::Lost)?;
        self.line(Side::Plugin, Action::Open)?;
        self.line(Side::Agent, Action::Open)
    }

    /// The last line: both ends exchange all that is left.
    pub fn settle(&mut self) -> Result<(), NoMemory>
        ensures { (w : ℕ) (p : Progress) → IsAt w p self.old
            → let world = world_of (progress_after w p Command.Settle).steps in
            OnOk result (IsEnds w world self.new.ends) }
    {
        self.ends.settle(&self.context)
    }
}

/// What is put in in a round.
fn item_of(alloc: Global, round: u64) -> Result<Item, NoMemory>
    ensures { IfOk result (λ item. item ≡ item_of round) }
{
    let byte = (round % 256) as u8;
    let payload = Vec::from_slice(alloc, &[byte])?;
    Ok(Item {
        ptype: 1,
        payload: Bytes::new(payload),
    })
}
