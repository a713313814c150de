//! The two ends of the lab, and the link of streams over them.

ghost use Rattle.std.specs.Prelude.{◌≡◌, ◌≤◌, ◌∷◌, [], ℕ, length, nat_lt, IfOk, OnOk};
ghost use Rattle.chan_values.specs.Limits.{max_window};
ghost use Rattle.lab_script.specs.Command.{IsAction};
ghost use Rattle.lab_run.specs.Outcomes.{is_emission};
ghost use Rattle.lab_run.specs.Printing.{Prints, printout};
ghost use Rattle.lab_run.specs.Steps.{step_of};
ghost use Rattle.lab_streams.specs.Ends.{IsStreams};
ghost use Rattle.lab_streams.specs.Outcomes.{items_in};
ghost use Rattle.lab_streams.specs.Run.{beginning, events_text, stream_report};
ghost use Rattle.lab_streams.specs.Steps.{Past, after, bytes_of, feed_step, fed_steps, plain_step};

use crate::link::Link;
use crate::outcome::{is_emission, items_in, outcome_of_event};
use chan_io::Sink;
use chan_values::{NoMemory, Side};
use lab_run::{Context, Pair, Printer, Stop};
use lab_script::{Action, Verb};
use smux_streams::Event;
use std::alloc::Global;

/// The two ends, and the link over them.
#[derive(Drop)]
pub struct Streams {
    pub pair: Pair,
    pub link: Link,
}

/// What a step of an end did.
#[derive(Drop)]
struct Done {
    /// The end emitted a message.
    emitted: bool,
    /// It released bytes of the streams.
    came: bool,
}

impl Streams {
    /// Two new ends, which are connected at the moment 0, with no stream.
    pub fn new(alloc: Global, window: u64) -> Result<Streams, NoMemory>
        requires low { 1 ≤ window }
        requires high { window ≤ max_window }
        ensures { IfOk result (IsStreams window beginning) }
    {
        Ok(Streams {
            pair: Pair::new(alloc, window)?,
            link: Link::new(alloc),
        })
    }

    /// Does what a line asks of one end, and feeds the bytes of the streams that it released;
    /// reports both. Answers whether it was an emission.
    pub fn step<K: Sink>(
        &mut self,
        context: &Context,
        side: Side,
        action: Action,
        printer: &mut Printer,
        sink: &mut K,
    ) -> Result<bool, Stop>
        requires { IsAction action }
        ensures told { (w : ℕ) (past : Past) → IsStreams w past self.old
            → let s = step_of w past.events context.now.moment context.now.line side action in
            IfOk result (λ emitted. emitted ≡ is_emission s.outcome) }
        ensures made { (w : ℕ) (past : Past) → IsStreams w past self.old
            → let s = step_of w past.events context.now.moment context.now.line side action in
            OnOk result (IsStreams w (after past (fed_steps past (s ∷ []))) self.new) }
        ensures printed { (w : ℕ) (past : Past) → IsStreams w past self.old
            → let s = step_of w past.events context.now.moment context.now.line side action in
            let at = printout K.output K.faults in
            Prints (stream_report (fed_steps past (s ∷ []))) result
            (at printer.old sink.old) (at printer.new sink.new) }
    {
        let done = self.end_step(context, side, action, printer, sink)?;
        if !done.came {
            return Ok(done.emitted);
        }
        self.feed(context, side, printer, sink)?;
        Ok(done.emitted)
    }

    /// Does what a line asks of one end, reports it, and keeps the bytes of the streams that it
    /// released.
    fn end_step<K: Sink>(
        &mut self,
        context: &Context,
        side: Side,
        action: Action,
        printer: &mut Printer,
        sink: &mut K,
    ) -> Result<Done, Stop>
        requires { IsAction action }
        ensures told { (w : ℕ) (past : Past) → IsStreams w past self.old
            → let s = step_of w past.events context.now.moment context.now.line side action in
            IfOk result (λ done. (done.emitted ≡ is_emission s.outcome)
            × (done.came ≡ nat_lt 0 (length (bytes_of (items_in s.outcome))))) }
        ensures made { (w : ℕ) (past : Past) → IsStreams w past self.old
            → let s = step_of w past.events context.now.moment context.now.line side action in
            OnOk result (IsStreams w (after past (plain_step s ∷ [])) self.new) }
        ensures printed { (w : ℕ) (past : Past) → IsStreams w past self.old
            → let s = step_of w past.events context.now.moment context.now.line side action in
            let at = printout K.output K.faults in
            Prints (stream_report (plain_step s ∷ [])) result
            (at printer.old sink.old) (at printer.new sink.new) }
    {
        let verb = action.verb();
        let outcome = self.pair.act(context, side, action)?;
        printer.line(sink, context.line, verb, Some(side), &outcome)?;
        let emitted = is_emission(&outcome);
        let came = self.link.keep(side, items_in(&outcome))?;
        self.pair.keep(side, outcome)?;
        Ok(Done { emitted, came })
    }

    /// Feeds what waits at a side to its Mux, and reports what its frames did.
    pub fn feed<K: Sink>(
        &mut self,
        context: &Context,
        side: Side,
        printer: &mut Printer,
        sink: &mut K,
    ) -> Result<(), Stop>
        ensures made { (w : ℕ) (past : Past) → IsStreams w past self.old
            → let s = feed_step past context.now.line side in
            OnOk result (IsStreams w (after past (s ∷ [])) self.new) }
        ensures printed { (w : ℕ) (past : Past) → IsStreams w past self.old
            → let s = feed_step past context.now.line side in
            let at = printout K.output K.faults in
            Prints (stream_report (s ∷ [])) result
            (at printer.old sink.old) (at printer.new sink.new) }
    {
        let events = self.link.feed(side)?;
        tell_events(context, side, events.as_slice(), printer, sink)
    }
}

/// Reports the events of a feed, each on a line.
fn tell_events<K: Sink>(
    context: &Context,
    side: Side,
    events: &[Event],
    printer: &mut Printer,
    sink: &mut K,
) -> Result<(), Stop>
    ensures { let text = events_text context.now.line side events.now in
        let at = printout K.output K.faults in
        Prints text result (at printer.old sink.old) (at printer.new sink.new) }
{
    for event in events {
        let outcome = outcome_of_event(*event);
        printer.line(sink, context.line, Verb::StreamEvent, Some(side), &outcome)?;
    }
    Ok(())
}
