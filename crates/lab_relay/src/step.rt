//! A line that asks something of one end.

ghost use Rattle.std.specs.Prelude.{◌≡◌, ℕ, Some, OnOk};
ghost use Rattle.lab_script.specs.Command.{IsAction, verb_of};
ghost use Rattle.lab_script.specs.RelayCommand.{IsRelayAction, relay_verb_of};
ghost use Rattle.lab_script.specs.Report.{report_line};
ghost use Rattle.lab_run.specs.Printing.{Prints, printout};
ghost use Rattle.lab_relay.specs.Held.{StandsFor};
ghost use Rattle.lab_relay.specs.Scene.{Scene};
ghost use Rattle.lab_relay.specs.Steps.{plain, turn_of};

use crate::relayed::Relayed;
use crate::verbs::{dial, lose, post, take};
use chan_io::Sink;
use chan_values::Side;
use lab_run::{Context, Printer, Stop};
use lab_script::{Action, RelayAction, Verb};

/// Does what a line asks of one end, and reports it.
pub(crate) fn step<K: Sink>(
    context: &Context,
    relayed: &mut Relayed,
    side: Side,
    action: RelayAction,
    printer: &mut Printer,
    sink: &mut K,
) -> Result<(), Stop>
    requires { IsRelayAction action }
    ensures made { (w : ℕ) (s : Scene) → StandsFor w s relayed.old
        → let turn = turn_of w s context.now.moment context.now.line side action in
        OnOk result (StandsFor w turn.scene relayed.new) }
    ensures printed { (w : ℕ) (s : Scene) → StandsFor w s relayed.old
        → let turn = turn_of w s context.now.moment context.now.line side action in
        let at = printout K.output K.faults in
        let text = report_line context.now.line (relay_verb_of action) (Some side) turn.outcome in
        Prints text result (at printer.old sink.old) (at printer.new sink.new) }
{
    let line = context.line;
    let end = Some(side);
    match action {
        RelayAction::Put { item } => {
            plain(context, relayed, side, Action::Put { item }, printer, sink)
        }
        RelayAction::PutLast { item } => {
            plain(
                context,
                relayed,
                side,
                Action::PutLast { item },
                printer,
                sink,
            )
        }
        RelayAction::Pull => plain(context, relayed, side, Action::Pull, printer, sink),
        RelayAction::Tick => plain(context, relayed, side, Action::Tick, printer, sink),
        RelayAction::Close => plain(context, relayed, side, Action::Close, printer, sink),
        RelayAction::Dial => {
            let outcome = dial(context, relayed, side)?;
            printer.line(sink, line, Verb::Dial, end, &outcome)
        }
        RelayAction::Gone => {
            let outcome = lose(context, relayed, side)?;
            printer.line(sink, line, Verb::Gone, end, &outcome)
        }
        RelayAction::Post { which } => {
            let outcome = post(context, relayed, side, which)?;
            printer.line(sink, line, Verb::Post, end, &outcome)
        }
        RelayAction::Take { which } => {
            let outcome = take(context, relayed, side, which)?;
            printer.line(sink, line, Verb::Take, end, &outcome)
        }
    }
}

/// Does and reports what a line asks of one end alone.
fn plain<K: Sink>(
    context: &Context,
    relayed: &mut Relayed,
    side: Side,
    action: Action,
    printer: &mut Printer,
    sink: &mut K,
) -> Result<(), Stop>
    requires { IsAction action }
    ensures made { (w : ℕ) (s : Scene) → StandsFor w s relayed.old
        → let turn = plain w s context.now.moment context.now.line side action in
        OnOk result (StandsFor w turn.scene relayed.new) }
    ensures printed { (w : ℕ) (s : Scene) → StandsFor w s relayed.old
        → let turn = plain w s context.now.moment context.now.line side action in
        let at = printout K.output K.faults in
        let text = report_line context.now.line (verb_of action) (Some side) turn.outcome in
        Prints text result (at printer.old sink.old) (at printer.new sink.new) }
{
    relayed.pair.step(context, side, action, printer, sink)?;
    Ok(())
}
