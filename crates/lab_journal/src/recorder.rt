//! Two ends of the lab whose journal is written.

ghost use Rattle.std.specs.Prelude.{◌≡◌, ◌+◌, ◌*◌, ◌∷◌, [], ℕ, List, IfOk};
ghost use Rattle.std.specs.List.{cons_option};
ghost use Rattle.chan_values.specs.Sides.{other};
ghost use Rattle.channel_core.specs.World.{Event};
ghost use Rattle.lab_script.specs.Command.{IsAction, IsCommand};
ghost use Rattle.lab_script.specs.declared.command.Action.TheVariants as actions;
ghost use Rattle.lab_script.specs.declared.word.Which.TheVariants as whiches;
ghost use Rattle.lab_run.specs.Ends.{IsPair, endpoint_of};
ghost use Rattle.lab_run.specs.Outcomes.{is_emission};
ghost use Rattle.lab_run.specs.Printing.{Prints, printout};
ghost use Rattle.lab_run.specs.Run.{moment_after};
ghost use Rattle.lab_run.specs.Steps.{emission_at, pass_steps, settle_steps, step_of, steps_of};
ghost use Rattle.session_audit.specs.Journal.{journal};
ghost use Rattle.lab_journal.specs.Records.{which_in, which_of};
ghost use Rattle.lab_journal.specs.Recording.{Records, hearing_record, verb_record};

use crate::record::{CLOSED, HEARD, LOST, OPENED, add_emission, add_heard, add_tick};
use crate::relayed::{Stamp, line_id};
use crate::writer::Writer;
use chan_io::Sink;
use chan_values::Side;
use lab_run::{Context, Pair, Stop};
use lab_script::{Action, Command, Outcome, Verb, Which};

/// A plugin's end and an agent's end, and the part of their journal that is not written yet.
#[derive(Drop)]
pub struct Recorder {
    pub pair: Pair,
    pub writer: Writer,
}

impl Recorder {
    /// Follows one line, and answers the moment after it.
    pub fn follow<K: Sink>(
        &mut self,
        context: &Context,
        command: Command,
        sink: &mut K,
    ) -> Result<u64, Stop>
        requires { IsCommand command }
        ensures moment { IfOk result (λ moment. moment ≡ moment_after context.now.moment command) }
        ensures recorded { (world : List Event) → let w = context.now.window in
            IsPair w world self.old.pair
            → let steps = steps_of w world context.now.moment context.now.line command in
            let at = printout K.output K.faults in
            Records w (which_in command) world steps result self.new.pair
            (at self.old.writer sink.old) (at self.new.writer sink.new) }
    {
        match command {
            Command::At { moment } => Ok(moment),
            Command::Settle => {
                self.settle(context, sink)?;
                Ok(context.moment)
            }
            Command::On(side, action) => {
                self.step(context, side, action, sink)?;
                Ok(context.moment)
            }
        }
    }

    /// Connects both ends anew, and lets the plugin and then the agent send all that it has.
    fn settle<K: Sink>(&mut self, context: &Context, sink: &mut K) -> Result<(), Stop>
        ensures { (world : List Event) → let w = context.now.window in
            IsPair w world self.old.pair
            → let steps = settle_steps w world context.now.moment context.now.line in
            let at = printout K.output K.faults in
            Records w whiches.Last world steps result self.new.pair
            (at self.old.writer sink.old) (at self.new.writer sink.new) }
    {
        self.step(context, Side::Plugin, Action::Open, sink)?;
        self.step(context, Side::Agent, Action::Open, sink)?;
        self.pass(context, Side::Plugin, sink)?;
        self.pass(context, Side::Agent, sink)
    }

    /// Pulls one end until it is idle. The other end hears each message as soon as it is emitted.
    fn pass<K: Sink>(&mut self, context: &Context, side: Side, sink: &mut K) -> Result<(), Stop>
        ensures { (world : List Event) → let w = context.now.window in
            IsPair w world self.old.pair
            → let steps = pass_steps (2 * w + 1) w world context.now.moment context.now.line side in
            let at = printout K.output K.faults in
            Records w whiches.Last world steps result self.new.pair
            (at self.old.writer sink.old) (at self.new.writer sink.new) }
    {
        // An exchange takes at most 2w + 1 pulls of an end.
        'turns: for _ in 0..2 * context.window + 1 {
            if !self.turn(context, side, sink)? {
                return Ok(());
            }
        }
        Ok(())
    }

    /// Pulls one end, and lets the other hear what it emits. Answers whether it emitted.
    fn turn<K: Sink>(&mut self, context: &Context, side: Side, sink: &mut K) -> Result<bool, Stop>
        ensures told { (world : List Event) → let w = context.now.window in
            IsPair w world self.old.pair
            → let s = step_of w world context.now.moment context.now.line side actions.Pull in
            IfOk result (λ emitted. emitted ≡ is_emission s.outcome) }
        ensures recorded { (world : List Event) → let w = context.now.window in
            IsPair w world self.old.pair
            → let steps = pass_steps 1 w world context.now.moment context.now.line side in
            let at = printout K.output K.faults in
            Records w whiches.Last world steps result self.new.pair
            (at self.old.writer sink.old) (at self.new.writer sink.new) }
    {
        if !self.step(context, side, Action::Pull, sink)? {
            return Ok(false);
        }
        let which = Which::Last;
        self.step(context, side.other(), Action::Hear { which }, sink)?;
        Ok(true)
    }

    /// Does what a line asks of one end, and records what can be seen of it. Answers whether it was an
    /// emission.
    fn step<K: Sink>(
        &mut self,
        context: &Context,
        side: Side,
        action: Action,
        sink: &mut K,
    ) -> Result<bool, Stop>
        requires { IsAction action }
        ensures told { (w : ℕ) (world : List Event) → IsPair w world self.old.pair
            → let s = step_of w world context.now.moment context.now.line side action in
            IfOk result (λ emitted. emitted ≡ is_emission s.outcome) }
        ensures recorded { (w : ℕ) (world : List Event) → IsPair w world self.old.pair
            → let s = step_of w world context.now.moment context.now.line side action in
            let at = printout K.output K.faults in
            Records w (which_of action) world (s ∷ []) result self.new.pair
            (at self.old.writer sink.old) (at self.new.writer sink.new) }
    {
        let verb = action.verb();
        let which = which_of(&action);
        let outcome = self.pair.act(context, side, action)?;
        self.record(context, side, verb, which, &outcome, sink)?;
        let emitted = is_emission(&outcome);
        self.pair.keep(side, outcome)?;
        Ok(emitted)
    }

    /// Adds the record of what an end did, if something can be seen of it.
    fn record<K: Sink>(
        &mut self,
        context: &Context,
        side: Side,
        verb: Verb,
        which: Which,
        outcome: &Outcome,
        sink: &mut K,
    ) -> Result<(), Stop>
        ensures same { self.new.pair ≡ self.old.pair }
        ensures recorded { let kept = emission_at (endpoint_of (other side) self.old.pair).sent.items which in
            let seen = verb_record verb kept context.now.line context.now.moment side outcome.now in
            let at = printout K.output K.faults in
            Prints (journal (cons_option seen [])) result
            (at self.old.writer sink.old) (at self.new.writer sink.new) }
    {
        let stamp = Stamp {
            alloc: context.alloc,
            id: line_id(context.line),
            moment: context.moment,
        };
        match verb {
            Verb::Pull => add_emission(&mut self.writer, side, outcome, sink),
            Verb::Hear => self.record_hearing(side, which, sink),
            Verb::Pause => {
                let bytes = stamp.pause()?;
                self.writer.add(sink, side, HEARD, &bytes)
            }
            Verb::Start => {
                let bytes = stamp.start()?;
                self.writer.add(sink, side, HEARD, &bytes)
            }
            Verb::End => {
                let bytes = stamp.closing()?;
                self.writer.add(sink, side, HEARD, &bytes)
            }
            Verb::Open => self.writer.add(sink, side, OPENED, &[]),
            Verb::Lost => self.writer.add(sink, side, LOST, &[]),
            Verb::Close => self.writer.add(sink, side, CLOSED, &[]),
            Verb::Tick => add_tick(&mut self.writer, side, outcome, sink),
            _ => Ok(()),
        }
    }

    /// Adds the record of an emission of the other end that comes to this one, if there is one.
    fn record_hearing<K: Sink>(
        &mut self,
        side: Side,
        which: Which,
        sink: &mut K,
    ) -> Result<(), Stop>
        ensures same { self.new.pair ≡ self.old.pair }
        ensures recorded { let kept = emission_at (endpoint_of (other side) self.old.pair).sent.items which in
            let at = printout K.output K.faults in
            Prints (journal (cons_option (hearing_record side kept) [])) result
            (at self.old.writer sink.old) (at self.new.writer sink.new) }
    {
        match side {
            Side::Plugin => add_heard(&mut self.writer, side, &self.pair.agent.sent, which, sink),
            Side::Agent => add_heard(&mut self.writer, side, &self.pair.plugin.sent, which, sink),
        }
    }
}

/// The emission that an action means, where it means one.
fn which_of(action: &Action) -> Which
    ensures { result ≡ which_of action.now }
{
    match action {
        Action::Hear { which } => *which,
        _ => Which::Last,
    }
}

/// Whether this is an emission.
fn is_emission(outcome: &Outcome) -> bool
    ensures { result ≡ is_emission outcome.now }
{
    matches!(outcome, Outcome::Emit { .. })
}
