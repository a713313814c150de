//! The two ends of the lab.

ghost use Rattle.std.specs.Prelude.{◌≡◌, ◌≤◌, ◌++◌, ◌∷◌, [], ℕ, List, IfOk, OnOk};
ghost use Rattle.chan_values.specs.Limits.{max_window};
ghost use Rattle.channel_core.specs.World.{Event};
ghost use Rattle.lab_script.specs.Command.{IsAction};
ghost use Rattle.lab_run.specs.Ends.{IsPair, PairMakes};
ghost use Rattle.lab_run.specs.Outcomes.{is_emission};
ghost use Rattle.lab_run.specs.Printing.{Prints, printout};
ghost use Rattle.lab_run.specs.Run.{report};
ghost use Rattle.lab_run.specs.Steps.{Step, events_of, start, step_of};

use crate::context::Context;
use crate::endpoint::Endpoint;
use crate::outcome::is_emission;
use crate::printer::Printer;
use crate::stop::Stop;
use chan_io::Sink;
use chan_values::{NoMemory, Side};
use lab_script::{Action, Outcome};
use std::alloc::Global;

/// A plugin's end and an agent's end.
#[derive(Drop)]
pub struct Pair {
    pub plugin: Endpoint,
    pub agent: Endpoint,
}

impl Pair {
    /// Two new ends, which are connected at the moment 0.
    pub fn new(alloc: Global, window: u64) -> Result<Pair, NoMemory>
        requires low { 1 ≤ window }
        requires high { window ≤ max_window }
        ensures { IfOk result (IsPair window start) }
    {
        Ok(Pair {
            plugin: Endpoint::connected(alloc, Side::Plugin, window)?,
            agent: Endpoint::connected(alloc, Side::Agent, window)?,
        })
    }

    /// Does what a line asks of one end, and reports it. Answers whether it was an emission.
    pub fn step<K: Sink>(
        &mut self,
        context: &Context,
        side: Side,
        action: Action,
        printer: &mut Printer,
        sink: &mut K,
    ) -> Result<bool, Stop>
        requires { IsAction action }
        ensures told { (w : ℕ) (world : List Event) → IsPair w world self.old
            → let s = step_of w world context.now.moment context.now.line side action in
            IfOk result (λ emitted. emitted ≡ is_emission s.outcome) }
        ensures made { (w : ℕ) (world : List Event) → IsPair w world self.old
            → let s = step_of w world context.now.moment context.now.line side action in
            OnOk result (IsPair w (world ++ events_of (s ∷ [])) self.new) }
        ensures printed { (w : ℕ) (world : List Event) → IsPair w world self.old
            → let s = step_of w world context.now.moment context.now.line side action in
            let at = printout K.output K.faults in
            Prints (report (s ∷ [])) result (at printer.old sink.old) (at printer.new sink.new) }
    {
        let verb = action.verb();
        let outcome = self.act(context, side, action)?;
        printer.line(sink, context.line, verb, Some(side), &outcome)?;
        let emitted = is_emission(&outcome);
        self.keep(side, outcome)?;
        Ok(emitted)
    }

    /// Does what a line asks of one end. What is emitted is in the outcome, to be kept.
    pub fn act(
        &mut self,
        context: &Context,
        side: Side,
        action: Action,
    ) -> Result<Outcome, NoMemory>
        requires { IsAction action }
        ensures { (w : ℕ) (world : List Event) → IsPair w world self.old
            → let s = step_of w world context.now.moment context.now.line side action in
            IfOk result (PairMakes w world s self.new) }
    {
        match side {
            Side::Plugin => self.plugin.act(context, &self.agent, action),
            Side::Agent => self.agent.act(context, &self.plugin, action),
        }
    }

    /// Keeps what one end emitted.
    pub fn keep(&mut self, side: Side, outcome: Outcome) -> Result<(), NoMemory>
        ensures { (w : ℕ) (world : List Event) (s : Step)
            → s.side ≡ side
            → PairMakes w world s self.old outcome
            → OnOk result (IsPair w (world ++ events_of (s ∷ [])) self.new) }
    {
        match side {
            Side::Plugin => self.plugin.keep(outcome),
            Side::Agent => self.agent.keep(outcome),
        }
    }
}
