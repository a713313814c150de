//! The exchange that `settle` stands for: both ends are connected anew, and send all that is left.

ghost use Rattle.std.specs.Prelude.{◌≡◌, ◌+◌, ◌*◌, ◌++◌, List, IfOk, OnOk};
ghost use Rattle.channel_core.specs.declared.call.EndCall.TheVariants as EndCall;
ghost use Rattle.channel_core.specs.World.{Event};
ghost use Rattle.lab_script.specs.declared.verb.Verb.TheVariants as Verb;
ghost use Rattle.lab_run.specs.Ends.{IsPair};
ghost use Rattle.lab_run.specs.Outcomes.{is_emission};
ghost use Rattle.lab_run.specs.Printing.{Prints, printout};
ghost use Rattle.lab_run.specs.Run.{report};
ghost use Rattle.lab_run.specs.Steps.{called, events_of, pass_steps, settle_steps};

use crate::context::Context;
use crate::pair::Pair;
use crate::printer::Printer;
use crate::stop::Stop;
use chan_io::Sink;
use chan_values::Side;
use lab_script::{Action, Which};

/// Connects both ends anew, and lets the plugin and then the agent send all that it has.
pub fn settle<K: Sink>(
    context: &Context,
    pair: &mut Pair,
    printer: &mut Printer,
    sink: &mut K,
) -> Result<(), Stop>
    ensures made { (world : List Event) → let w = context.now.window in
        IsPair w world pair.old
        → let steps = settle_steps w world context.now.moment context.now.line in
        OnOk result (IsPair w (world ++ events_of steps) pair.new) }
    ensures printed { (world : List Event) → let w = context.now.window in
        IsPair w world pair.old
        → let steps = settle_steps w world context.now.moment context.now.line in
        let at = printout K.output K.faults in
        Prints (report steps) result (at printer.old sink.old) (at printer.new sink.new) }
{
    pair.step(context, Side::Plugin, Action::Open, printer, sink)?;
    pair.step(context, Side::Agent, Action::Open, printer, sink)?;
    pass(context, pair, Side::Plugin, printer, sink)?;
    pass(context, pair, Side::Agent, printer, sink)
}

/// Pulls one end until it is idle. The other end hears each message as soon as it is emitted.
fn pass<K: Sink>(
    context: &Context,
    pair: &mut Pair,
    side: Side,
    printer: &mut Printer,
    sink: &mut K,
) -> Result<(), Stop>
    ensures made { (world : List Event) → let w = context.now.window in
        IsPair w world pair.old
        → let steps = pass_steps (2 * w + 1) w world context.now.moment context.now.line side in
        OnOk result (IsPair w (world ++ events_of steps) pair.new) }
    ensures printed { (world : List Event) → let w = context.now.window in
        IsPair w world pair.old
        → let steps = pass_steps (2 * w + 1) w world context.now.moment context.now.line side in
        let at = printout K.output K.faults in
        Prints (report steps) result (at printer.old sink.old) (at printer.new sink.new) }
{
    // An exchange takes at most 2w + 1 pulls of an end.
    'turns: for _ in 0..2 * context.window + 1 {
        if !turn(context, pair, side, printer, sink)? {
            return Ok(());
        }
    }
    Ok(())
}

/// Pulls one end once; the other end hears what it emitted. Answers whether there was anything.
fn turn<K: Sink>(
    context: &Context,
    pair: &mut Pair,
    side: Side,
    printer: &mut Printer,
    sink: &mut K,
) -> Result<bool, Stop>
    ensures told { (world : List Event) → let w = context.now.window in
        IsPair w world pair.old
        → let call = EndCall.Pull context.now.moment in
        let pulled = called w world context.now.line Verb.Pull side call in
        IfOk result (λ emitted. emitted ≡ is_emission pulled.outcome) }
    ensures made { (world : List Event) → let w = context.now.window in
        IsPair w world pair.old
        → let steps = pass_steps 1 w world context.now.moment context.now.line side in
        OnOk result (IsPair w (world ++ events_of steps) pair.new) }
    ensures printed { (world : List Event) → let w = context.now.window in
        IsPair w world pair.old
        → let steps = pass_steps 1 w world context.now.moment context.now.line side in
        let at = printout K.output K.faults in
        Prints (report steps) result (at printer.old sink.old) (at printer.new sink.new) }
{
    if !pair.step(context, side, Action::Pull, printer, sink)? {
        return Ok(false);
    }
    let which = Which::Last;
    pair.step(context, side.other(), Action::Hear { which }, printer, sink)?;
    Ok(true)
}
