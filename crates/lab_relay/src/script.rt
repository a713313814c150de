//! A run of a script in the relay's mode.

ghost use Rattle.std.specs.Prelude.{◌≡◌, ◌≤◌, [], ℕ, All, IfOk, OnOk};
ghost use Rattle.chan_values.specs.Limits.{max_window};
ghost use Rattle.lab_script.specs.RelayCommand.{IsRelayCommand};
ghost use Rattle.lab_run.specs.Printing.{Prints, printout};
ghost use Rattle.lab_relay.specs.Held.{StandsFor};
ghost use Rattle.lab_relay.specs.Run.{moment_after, report, run, scene_after, told_of};
ghost use Rattle.lab_relay.specs.Scene.{Scene};

use crate::relayed::Relayed;
use crate::step::step;
use crate::verbs::finish;
use chan_io::Sink;
use lab_run::{Context, Printer, Stop};
use lab_script::{RelayCommand, Verb};
use std::alloc::Global;

/// Runs a script on two new ends with this window and a new relay, and writes its report. Nothing is
/// left to be written.
pub fn run<K: Sink>(
    alloc: Global,
    window: u64,
    commands: Vec<RelayCommand>,
    sink: &mut K,
) -> Result<(), Stop>
    requires low { 1 ≤ window }
    requires high { window ≤ max_window }
    requires in_range { All IsRelayCommand commands.items }
    ensures { let at = printout K.output K.faults [] in
        Prints (report (run window commands.items)) result (at sink.old) (at sink.new) }
{
    let mut relayed = Relayed::new(alloc, window)?;
    let mut printer = Printer::new(alloc);
    let mut moment = 0;
    let mut line = 0;
    for command in commands {
        line += 1;
        let context = Context {
            alloc,
            window,
            moment,
            line,
        };
        moment = follow(&context, &mut relayed, command, &mut printer, sink)?;
    }
    printer.flush(sink)
}

/// Follows one line, and answers the moment after it.
fn follow<K: Sink>(
    context: &Context,
    relayed: &mut Relayed,
    command: RelayCommand,
    printer: &mut Printer,
    sink: &mut K,
) -> Result<u64, Stop>
    requires { IsRelayCommand command }
    ensures moment { IfOk result (λ moment. moment ≡ moment_after context.now.moment command) }
    ensures made { (w : ℕ) (s : Scene) → StandsFor w s relayed.old
        → let after = scene_after w s context.now.moment context.now.line command in
        OnOk result (StandsFor w after relayed.new) }
    ensures printed { (w : ℕ) (s : Scene) → StandsFor w s relayed.old
        → let told = told_of w s context.now.moment context.now.line command in
        let at = printout K.output K.faults in
        Prints (report told) result (at printer.old sink.old) (at printer.new sink.new) }
{
    match command {
        RelayCommand::At { moment } => Ok(moment),
        RelayCommand::Finish => {
            let outcome = finish(context, relayed)?;
            printer.line(sink, context.line, Verb::Finish, None, &outcome)?;
            Ok(context.moment)
        }
        RelayCommand::On(side, action) => {
            step(context, relayed, side, action, printer, sink)?;
            Ok(context.moment)
        }
    }
}
