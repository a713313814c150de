//! One end of the lab.

ghost use Rattle.std.specs.Prelude.{◌≡◌, ◌≤◌, ◌++◌, ◌∷◌, [], ℕ, List, IfOk, OnOk};
ghost use Rattle.std.specs.Option.{option_copied};
ghost use Rattle.chan_values.specs.Limits.{max_window};
ghost use Rattle.chan_values.specs.Sides.{other};
ghost use Rattle.channel_core.specs.Exchange.{opening};
ghost use Rattle.channel_core.specs.World.{Event, IsLegalWorld, history_of};
ghost use Rattle.lab_script.specs.Command.{IsAction};
ghost use Rattle.lab_run.specs.Ends.{IsEndpoint, Makes};
ghost use Rattle.lab_run.specs.Outcomes.{encodings_in};
ghost use Rattle.lab_run.specs.Steps.{emission_at, step_of};

use crate::calls;
use crate::context::Context;
use crate::damage::hurt;
use chan_values::{Bytes, NoMemory, Side};
use channel_core::{End, Incoming};
use lab_script::{Action, Outcome, Which};
use std::alloc::Global;

/// An end, its side, and the bytes of each message that it emitted.
#[derive(Drop)]
pub struct Endpoint {
    pub side: Side,
    pub end: End,
    pub sent: Vec<Bytes>,
}

impl Endpoint {
    /// A new end of this side, without a connection.
    pub fn new(alloc: Global, side: Side, window: u64) -> Result<Endpoint, NoMemory>
        requires low { 1 ≤ window }
        requires high { window ≤ max_window }
        ensures { IfOk result (IsEndpoint window side []) }
    {
        Ok(Endpoint {
            side,
            end: End::new(alloc, side, window)?,
            sent: Vec::new(alloc),
        })
    }

    /// A new end of this side that is connected at the moment 0.
    pub fn connected(alloc: Global, side: Side, window: u64) -> Result<Endpoint, NoMemory>
        requires low { 1 ≤ window }
        requires high { window ≤ max_window }
        ensures { IfOk result (IsEndpoint window side ((opening side 0).entry ∷ [])) }
    {
        let mut endpoint = Endpoint::new(alloc, side, window)?;
        endpoint.end.opened(0);
        Ok(endpoint)
    }

    /// Does what a line asks of this end. What is emitted is in the outcome, to be kept.
    pub fn act(
        &mut self,
        context: &Context,
        there: &Endpoint,
        action: Action,
    ) -> Result<Outcome, NoMemory>
        requires { IsAction action }
        ensures { (w : ℕ) (world : List Event)
            → let side = self.old.side in
            IsLegalWorld w world
            → IsEndpoint w side (history_of side world) self.old
            → IsEndpoint w (other side) (history_of (other side) world) there.now
            → let s = step_of w world context.now.moment context.now.line side action in
            IfOk result (Makes w world s self.new) }
    {
        let alloc = context.alloc;
        let side = self.side;
        let now = context.moment;
        match action {
            Action::Put { item } => Ok(calls::put(&mut self.end, item, context.line, now)),
            Action::PutLast { item } => Ok(calls::put_last(&mut self.end, item, context.line, now)),
            Action::Pull => {
                let number = self.sent.len() as u64;
                calls::pull(alloc, side, &mut self.end, number, now)
            }
            Action::Tick => Ok(calls::tick(&mut self.end, now)),
            Action::Close => Ok(calls::close(&mut self.end)),
            Action::Hear { which } => match emission(&there.sent, which) {
                Some(bytes) => calls::hear(alloc, side, &mut self.end, bytes.as_slice(), now),
                None => Ok(Outcome::Absent),
            },
            Action::Hurt { which, place } => match emission(&there.sent, which) {
                Some(bytes) => hurt(alloc, side, bytes.as_slice(), place),
                None => Ok(Outcome::Absent),
            },
            Action::Lost => Ok(calls::disconnect(&mut self.end)),
            Action::Open => Ok(calls::connect(&mut self.end, now)),
            Action::Pause => calls::hear_message(&mut self.end, Incoming::Pause, now),
            Action::Start => calls::hear_message(&mut self.end, Incoming::Start, now),
            Action::End => calls::hear_closing(alloc, &mut self.end, now),
        }
    }

    /// Keeps what was emitted.
    pub fn keep(&mut self, outcome: Outcome) -> Result<(), NoMemory>
        ensures same { OnOk result
            ((self.new.end ≡ self.old.end) × (self.new.side ≡ self.old.side)) }
        ensures sent { OnOk result
            (self.new.sent.items ≡ self.old.sent.items ++ encodings_in outcome) }
    {
        if let Outcome::Emit { encoding, .. } = outcome {
            self.sent.push(encoding)?;
        }
        Ok(())
    }
}

/// The emission that a line means.
fn emission(sent: &[Bytes], which: Which) -> Option<&Bytes>
    ensures { option_copied result ≡ emission_at sent.now which }
{
    match which {
        Which::Number(k) => sent.get(k as usize),
        Which::Last => sent.last(),
    }
}
