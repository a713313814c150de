//! Both ends of a generated run.

ghost use Rattle.std.specs.Prelude.{◌≡◌, ◌≤◌, ◌+◌, ◌*◌, ◌++◌, ◌∷◌, [], ℕ, List, IfOk, OnOk};
ghost use Rattle.chan_values.specs.Limits.{max_window};
ghost use Rattle.channel_core.specs.World.{Event};
ghost use Rattle.lab_run.specs.Outcomes.{is_emission};
ghost use Rattle.lab_run.specs.Steps.{events_of, pass_steps, settle_steps, start, step_of};
ghost use Rattle.lab_gen.specs.Counts.{counts_of};
ghost use Rattle.lab_gen.specs.Ends.{IsEnds, IsGenerated};

use crate::counts::Counts;
use crate::latest::Latest;
use chan_values::{NoMemory, Side};
use lab_run::Context;
use lab_script::{Action, Which};
use std::alloc::Global;

/// A plugin's end and an agent's end.
#[derive(Drop)]
pub struct Ends {
    pub plugin: Latest,
    pub agent: Latest,
}

impl Ends {
    /// Two new ends, which are connected at the moment 0.
    pub fn new(alloc: Global, window: u64) -> Result<Ends, NoMemory>
        requires low { 1 ≤ window }
        requires high { window ≤ max_window }
        ensures { IfOk result (IsEnds window start) }
    {
        Ok(Ends {
            plugin: Latest::connected(alloc, Side::Plugin, window)?,
            agent: Latest::connected(alloc, Side::Agent, window)?,
        })
    }

    /// Does what a line asks of one end. Answers whether it was an emission.
    pub fn step(&mut self, context: &Context, side: Side, action: Action) -> Result<bool, NoMemory>
        requires { IsGenerated action }
        ensures told { (w : ℕ) (world : List Event) → IsEnds w world self.old
            → let s = step_of w world context.now.moment context.now.line side action in
            IfOk result (λ emitted. emitted ≡ is_emission s.outcome) }
        ensures made { (w : ℕ) (world : List Event) → IsEnds w world self.old
            → let s = step_of w world context.now.moment context.now.line side action in
            OnOk result (IsEnds w (world ++ events_of (s ∷ [])) self.new) }
    {
        match side {
            Side::Plugin => self.plugin.step(context, Side::Plugin, &self.agent, action),
            Side::Agent => self.agent.step(context, Side::Agent, &self.plugin, action),
        }
    }

    /// Connects both ends anew, and lets the plugin and then the agent send all that it has.
    pub fn settle(&mut self, context: &Context) -> Result<(), NoMemory>
        ensures { (world : List Event) → let w = context.now.window in
            IsEnds w world self.old
            → let steps = settle_steps w world context.now.moment context.now.line in
            OnOk result (IsEnds w (world ++ events_of steps) self.new) }
    {
        self.step(context, Side::Plugin, Action::Open)?;
        self.step(context, Side::Agent, Action::Open)?;
        self.pass(context, Side::Plugin)?;
        self.pass(context, Side::Agent)
    }

    /// Pulls one end until it is idle. The other end hears each message as soon as it is emitted.
    fn pass(&mut self, context: &Context, side: Side) -> Result<(), NoMemory>
        ensures { (world : List Event) → let w = context.now.window in
            IsEnds w world self.old
            → let steps = pass_steps (2 * w + 1) w world context.now.moment context.now.line side in
            OnOk result (IsEnds w (world ++ events_of steps) self.new) }
    {
        // An exchange takes at most 2w + 1 pulls of an end.
        'turns: for _ in 0..2 * context.window + 1 {
            if !self.step(context, side, Action::Pull)? {
                return Ok(());
            }
            let which = Which::Last;
            self.step(context, side.other(), Action::Hear { which })?;
        }
        Ok(())
    }

    /// How many items were put in and released.
    pub fn counts(&self) -> Counts
        ensures { (w : ℕ) (world : List Event) → IsEnds w world self.now
            → result ≡ counts_of world }
    {
        let plugin = self.plugin.end.look();
        let agent = self.agent.end.look();
        Counts {
            put_by_plugin: plugin.next,
            put_by_agent: agent.next,
            released_by_agent: agent.expected,
            released_by_plugin: plugin.expected,
        }
    }
}
