//! A run of a script in plain mode.

ghost use Rattle.std.specs.Prelude.{◌≡◌, ◌≤◌, ◌++◌, [], List, All, IfOk, OnOk};
ghost use Rattle.chan_values.specs.Limits.{max_window};
ghost use Rattle.channel_core.specs.World.{Event};
ghost use Rattle.lab_script.specs.Command.{IsCommand};
ghost use Rattle.lab_run.specs.Ends.{IsPair};
ghost use Rattle.lab_run.specs.Printing.{Prints, printout};
ghost use Rattle.lab_run.specs.Run.{moment_after, report, run};
ghost use Rattle.lab_run.specs.Steps.{events_of, steps_of};

use crate::context::Context;
use crate::exchange::settle;
use crate::pair::Pair;
use crate::printer::Printer;
use crate::stop::Stop;
use chan_io::Sink;
use lab_script::Command;
use std::alloc::Global;

/// Runs a script on two new ends with this window, and writes its report. Nothing is left to be written.
pub fn run<K: Sink>(
    alloc: Global,
    window: u64,
    commands: Vec<Command>,
    sink: &mut K,
) -> Result<(), Stop>
    requires low { 1 ≤ window }
    requires high { window ≤ max_window }
    requires in_range { All IsCommand commands.items }
    ensures { let at = printout K.output K.faults [] in
        Prints (report (run window commands.items)) result (at sink.old) (at sink.new) }
{
    let mut pair = Pair::new(alloc, window)?;
    let mut printer = Printer::new(alloc);
    let mut moment = 0;
    let mut line = 0;
    for command in commands {
        line += 1;
        let context = Context {
            alloc,
            window,
            moment,
            line,
        };
        moment = follow(&context, &mut pair, command, &mut printer, sink)?;
    }
    printer.flush(sink)
}

/// Follows one line, and answers the moment after it.
fn follow<K: Sink>(
    context: &Context,
    pair: &mut Pair,
    command: Command,
    printer: &mut Printer,
    sink: &mut K,
) -> Result<u64, Stop>
    requires { IsCommand command }
    ensures moment { IfOk result (λ moment. moment ≡ moment_after context.now.moment command) }
    ensures made { (world : List Event) → let w = context.now.window in
        IsPair w world pair.old
        → let steps = steps_of w world context.now.moment context.now.line command in
        OnOk result (IsPair w (world ++ events_of steps) pair.new) }
    ensures printed { (world : List Event) → let w = context.now.window in
        IsPair w world pair.old
        → let steps = steps_of w world context.now.moment context.now.line command in
        let at = printout K.output K.faults in
        Prints (report steps) result (at printer.old sink.old) (at printer.new sink.new) }
{
    match command {
        Command::At { moment } => Ok(moment),
        Command::Settle => {
            settle(context, pair, printer, sink)?;
            Ok(context.moment)
        }
        Command::On(side, action) => {
            pair.step(context, side, action, printer, sink)?;
            Ok(context.moment)
        }
    }
}
