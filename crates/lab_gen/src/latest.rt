//! An end of which the latest emission alone is kept.

ghost use Rattle.std.specs.Prelude.{◌≡◌, ◌≤◌, ◌++◌, ◌∷◌, [], ℕ, List, IfOk, OnOk};
ghost use Rattle.chan_values.specs.Limits.{max_window};
ghost use Rattle.chan_values.specs.Sides.{other};
ghost use Rattle.channel_core.specs.Exchange.{opening};
ghost use Rattle.channel_core.specs.World.{Event, IsLegalWorld, history_of};
ghost use Rattle.lab_run.specs.Outcomes.{is_emission};
ghost use Rattle.lab_run.specs.Steps.{events_of, step_of};
ghost use Rattle.lab_gen.specs.Ends.{IsGenerated, IsLatest, MakesLatest, latest_after};

use chan_values::{Bytes, NoMemory, Side};
use channel_core::End;
use lab_run::{Context, calls};
use lab_script::{Action, Outcome};
use std::alloc::Global;

/// An end, and the bytes of the latest message that it emitted.
#[derive(Drop)]
pub struct Latest {
    pub end: End,
    pub emission: Option<Bytes>,
}

impl Latest {
    /// A new end that is connected at the moment 0.
    pub fn connected(alloc: Global, side: Side, window: u64) -> Result<Latest, NoMemory>
        requires low { 1 ≤ window }
        requires high { window ≤ max_window }
        ensures { IfOk result (IsLatest window side ((opening side 0).entry ∷ [])) }
    {
        let mut end = End::new(alloc, side, window)?;
        end.opened(0);
        Ok(Latest {
            end,
            emission: None,
        })
    }

    /// Does what a line asks of this end, and keeps what it emits. Answers whether it emitted.
    pub fn step(
        &mut self,
        context: &Context,
        side: Side,
        there: &Latest,
        action: Action,
    ) -> Result<bool, NoMemory>
        requires { IsGenerated action }
        ensures told { (w : ℕ) (world : List Event) → IsLegalWorld w world
            → IsLatest w side (history_of side world) self.old
            → IsLatest w (other side) (history_of (other side) world) there.now
            → let s = step_of w world context.now.moment context.now.line side action in
            IfOk result (λ emitted. emitted ≡ is_emission s.outcome) }
        ensures made { (w : ℕ) (world : List Event) → IsLegalWorld w world
            → IsLatest w side (history_of side world) self.old
            → IsLatest w (other side) (history_of (other side) world) there.now
            → let s = step_of w world context.now.moment context.now.line side action in
            OnOk result
            (IsLatest w side (history_of side (world ++ events_of (s ∷ []))) self.new) }
    {
        let outcome = self.act(context, side, there, action)?;
        Ok(self.keep(outcome))
    }

    /// Does what a line asks of this end. What is emitted is in the outcome, to be kept.
    fn act(
        &mut self,
        context: &Context,
        side: Side,
        there: &Latest,
        action: Action,
    ) -> Result<Outcome, NoMemory>
        requires { IsGenerated action }
        ensures { (w : ℕ) (world : List Event) → IsLegalWorld w world
            → IsLatest w side (history_of side world) self.old
            → IsLatest w (other side) (history_of (other side) world) there.now
            → let s = step_of w world context.now.moment context.now.line side action in
            IfOk result (MakesLatest w world s self.new) }
    {
        let alloc = context.alloc;
        let now = context.moment;
        match action {
            Action::Put { item } => Ok(calls::put(&mut self.end, item, context.line, now)),
            // No line tells the number of an emission.
            Action::Pull => calls::pull(alloc, side, &mut self.end, 0, now),
            Action::Tick => Ok(calls::tick(&mut self.end, now)),
            Action::Hear { .. } => match &there.emission {
                Some(bytes) => calls::hear(alloc, side, &mut self.end, bytes.as_slice(), now),
                None => Ok(Outcome::Absent),
            },
            Action::Lost => Ok(calls::disconnect(&mut self.end)),
            Action::Open => Ok(calls::connect(&mut self.end, now)),
            Action::PutLast { .. }
            | Action::Close
            | Action::Hurt { .. }
            | Action::Pause
            | Action::Start
            | Action::End => unreachable!(),
        }
    }

    /// Keeps what was emitted, in the place of what was kept before. Answers whether there was anything.
    fn keep(&mut self, outcome: Outcome) -> bool
        ensures told { result ≡ is_emission outcome }
        ensures same { self.new.end ≡ self.old.end }
        ensures kept { self.new.emission ≡ latest_after self.old.emission outcome }
    {
        match outcome {
            Outcome::Emit { encoding, .. } => {
                self.emission = Some(encoding);
                true
            }
            _ => false,
        }
    }
}
