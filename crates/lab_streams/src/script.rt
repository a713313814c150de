//! A run of a script with streams.

ghost use Rattle.std.specs.Prelude.{◌≡◌, ◌≤◌, [], All, IfOk, OnOk};
ghost use Rattle.chan_values.specs.Limits.{max_window};
ghost use Rattle.lab_script.specs.Command.{IsCommand};
ghost use Rattle.lab_script.specs.StreamCommand.{IsStreamCommand};
ghost use Rattle.lab_run.specs.Printing.{Prints, printout};
ghost use Rattle.lab_run.specs.Run.{moment_after};
ghost use Rattle.lab_run.specs.Steps.{steps_of};
ghost use Rattle.lab_streams.specs.Ends.{IsSomeLink, IsStreams};
ghost use Rattle.lab_streams.specs.Run.{stream_moment, stream_report, stream_run};
ghost use Rattle.lab_streams.specs.Steps.{Past, after, fed_steps, stream_steps};

use crate::streams::Streams;
use chan_io::Sink;
use lab_run::{Context, Printer, Stop};
use lab_script::{Command, StreamCommand};
use std::alloc::Global;

/// Runs a script on two new ends with this window, and writes its report. Nothing is left to be
/// written.
pub fn run<K: Sink>(
    alloc: Global,
    window: u64,
    commands: Vec<StreamCommand>,
    sink: &mut K,
) -> Result<(), Stop>
    requires low { 1 ≤ window }
    requires high { window ≤ max_window }
    requires in_range { All IsStreamCommand commands.items }
    ensures { let at = printout K.output K.faults [] in
        Prints (stream_report (stream_run window commands.items)) result
        (at sink.old) (at sink.new) }
{
    let mut streams = Streams::new(alloc, window)?;
    let mut printer = Printer::new(alloc);
    let mut moment = 0;
    let mut line = 0;
    for command in commands {
        line += 1;
        let context = Context {
            alloc,
            window,
            moment,
            line,
        };
        moment = follow(&context, &mut streams, command, &mut printer, sink)?;
    }
    printer.flush(sink)
}

/// Follows one line, and answers the moment after it.
fn follow<K: Sink>(
    context: &Context,
    streams: &mut Streams,
    command: StreamCommand,
    printer: &mut Printer,
    sink: &mut K,
) -> Result<u64, Stop>
    requires stands { IsSomeLink streams.old.link }
    requires in_range { IsStreamCommand command }
    ensures moment { IfOk result
        (λ moment. moment ≡ stream_moment context.now.moment command) }
    ensures made { (past : Past) → let w = context.now.window in
        IsStreams w past streams.old
        → let steps = stream_steps w past context.now.moment context.now.line command in
        OnOk result (IsStreams w (after past steps) streams.new) }
    ensures printed { (past : Past) → let w = context.now.window in
        IsStreams w past streams.old
        → let steps = stream_steps w past context.now.moment context.now.line command in
        let at = printout K.output K.faults in
        Prints (stream_report steps) result (at printer.old sink.old) (at printer.new sink.new) }
{
    match command {
        StreamCommand::Plain(command) => follow_plain(context, streams, command, printer, sink),
        StreamCommand::Open => {
            streams.open(context, printer, sink)?;
            Ok(context.moment)
        }
        StreamCommand::On(side, action) => {
            streams.act(context, side, action, printer, sink)?;
            Ok(context.moment)
        }
    }
}

/// Follows one line of the ends, and answers the moment after it.
fn follow_plain<K: Sink>(
    context: &Context,
    streams: &mut Streams,
    command: Command,
    printer: &mut Printer,
    sink: &mut K,
) -> Result<u64, Stop>
    requires { IsCommand command }
    ensures moment { IfOk result (λ moment. moment ≡ moment_after context.now.moment command) }
    ensures made { (past : Past) → let w = context.now.window in
        IsStreams w past streams.old
        → let steps = steps_of w past.events context.now.moment context.now.line command in
        OnOk result (IsStreams w (after past (fed_steps past steps)) streams.new) }
    ensures printed { (past : Past) → let w = context.now.window in
        IsStreams w past streams.old
        → let steps = steps_of w past.events context.now.moment context.now.line command in
        let at = printout K.output K.faults in
        Prints (stream_report (fed_steps past steps)) result
        (at printer.old sink.old) (at printer.new sink.new) }
{
    match command {
        Command::At { moment } => Ok(moment),
        Command::Settle => {
            streams.settle(context, printer, sink)?;
            Ok(context.moment)
        }
        Command::On(side, action) => {
            streams.step(context, side, action, printer, sink)?;
            Ok(context.moment)
        }
    }
}
