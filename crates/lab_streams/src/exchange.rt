//! The exchange that `settle` stands for, with a feed after each hearing that released bytes of the
//! streams.

ghost use Rattle.std.specs.Prelude.{◌≡◌, ◌+◌, ◌*◌, IfOk, OnOk};
ghost use Rattle.channel_core.specs.declared.call.EndCall.TheVariants as EndCall;
ghost use Rattle.lab_script.specs.declared.verb.Verb.TheVariants as verbs;
ghost use Rattle.lab_run.specs.Outcomes.{is_emission};
ghost use Rattle.lab_run.specs.Printing.{Prints, printout};
ghost use Rattle.lab_run.specs.Steps.{called, pass_steps, settle_steps};
ghost use Rattle.lab_streams.specs.Ends.{IsStreams};
ghost use Rattle.lab_streams.specs.Run.{stream_report};
ghost use Rattle.lab_streams.specs.Steps.{Past, after, fed_steps};

use crate::streams::Streams;
use chan_io::Sink;
use chan_values::Side;
use lab_run::{Context, Printer, Stop};
use lab_script::{Action, Which};

impl Streams {
    /// Connects both ends anew, and lets the plugin and then the agent send all that it has.
    pub fn settle<K: Sink>(
        &mut self,
        context: &Context,
        printer: &mut Printer,
        sink: &mut K,
    ) -> Result<(), Stop>
        ensures made { (past : Past) → let w = context.now.window in
            IsStreams w past self.old
            → let steps = settle_steps w past.events context.now.moment context.now.line in
            OnOk result (IsStreams w (after past (fed_steps past steps)) self.new) }
        ensures printed { (past : Past) → let w = context.now.window in
            IsStreams w past self.old
            → let steps = settle_steps w past.events context.now.moment context.now.line in
            let at = printout K.output K.faults in
            Prints (stream_report (fed_steps past steps)) result
            (at printer.old sink.old) (at printer.new sink.new) }
    {
        self.step(context, Side::Plugin, Action::Open, printer, sink)?;
        self.step(context, Side::Agent, Action::Open, printer, sink)?;
        self.pass(context, Side::Plugin, printer, sink)?;
        self.pass(context, Side::Agent, printer, sink)
    }

    /// Pulls one end until it is idle. The other end hears each message as soon as it is emitted.
    fn pass<K: Sink>(
        &mut self,
        context: &Context,
        side: Side,
        printer: &mut Printer,
        sink: &mut K,
    ) -> Result<(), Stop>
        ensures made { (past : Past) → let w = context.now.window in
            IsStreams w past self.old
            → let steps = pass_steps (2 * w + 1) w past.events context.now.moment
            context.now.line side in
            OnOk result (IsStreams w (after past (fed_steps past steps)) self.new) }
        ensures printed { (past : Past) → let w = context.now.window in
            IsStreams w past self.old
            → let steps = pass_steps (2 * w + 1) w past.events context.now.moment
            context.now.line side in
            let at = printout K.output K.faults in
            Prints (stream_report (fed_steps past steps)) result
            (at printer.old sink.old) (at printer.new sink.new) }
    {
        // An exchange takes at most 2w + 1 pulls of an end.
        'turns: for _ in 0..2 * context.window + 1 {
            if !self.turn(context, side, printer, sink)? {
                return Ok(());
            }
        }
        Ok(())
    }

    /// Pulls one end once; the other end hears what it emitted. Answers whether there was anything.
    fn turn<K: Sink>(
        &mut self,
        context: &Context,
        side: Side,
        printer: &mut Printer,
        sink: &mut K,
    ) -> Result<bool, Stop>
        ensures told { (past : Past) → let w = context.now.window in
            IsStreams w past self.old
            → let call = EndCall.Pull context.now.moment in
            let pulled = called w past.events context.now.line verbs.Pull side call in
            IfOk result (λ emitted. emitted ≡ is_emission pulled.outcome) }
        ensures made { (past : Past) → let w = context.now.window in
            IsStreams w past self.old
            → let steps = pass_steps 1 w past.events context.now.moment context.now.line side in
            OnOk result (IsStreams w (after past (fed_steps past steps)) self.new) }
        ensures printed { (past : Past) → let w = context.now.window in
            IsStreams w past self.old
            → let steps = pass_steps 1 w past.events context.now.moment context.now.line side in
            let at = printout K.output K.faults in
            Prints (stream_report (fed_steps past steps)) result
            (at printer.old sink.old) (at printer.new sink.new) }
    {
        if !self.step(context, side, Action::Pull, printer, sink)? {
            return Ok(false);
        }
        let which = Which::Last;
        self.step(context, side.other(), Action::Hear { which }, printer, sink)?;
        Ok(true)
    }
}
