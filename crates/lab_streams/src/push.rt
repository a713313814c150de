//! What a line asks of the link of streams.

ghost use Rattle.std.specs.Prelude.{◌≡◌, ◌≤◌, ◌<◌, ◌∷◌, [], ℕ, List, Some, length, OnOk};
ghost use Rattle.chan_values.specs.Limits.{max_payload};
ghost use Rattle.channel_core.specs.Legal.{look_at};
ghost use Rattle.channel_core.specs.World.{Event, history_of};
ghost use Rattle.lab_script.specs.Report.{report_line};
ghost use Rattle.lab_script.specs.StreamCommand.{IsStreamAction};
ghost use Rattle.lab_script.specs.declared.command.Action.TheVariants as actions;
ghost use Rattle.lab_script.specs.declared.verb.Verb.TheVariants as verbs;
ghost use Rattle.lab_run.specs.Ends.{IsPair};
ghost use Rattle.lab_run.specs.Printing.{Prints, printout};
ghost use Rattle.lab_run.specs.Steps.{step_of};
ghost use Rattle.smux_frames.specs.Spelling.{max_written_data};
ghost use Rattle.lab_streams.specs.Ends.{IsSomeLink, IsStreams};
ghost use Rattle.lab_streams.specs.Run.{stream_report};
ghost use Rattle.lab_streams.specs.Steps.{Past, action_steps, after, close_step, feed_step, open_step, plain_step, push_step, stream_item, take_step, write_step};

use crate::carrier::STREAM_TYPE;
use crate::outcome::outcome_of_no_room;
use crate::streams::Streams;
use chan_io::Sink;
use chan_values::{Bytes, Item, Side};
use channel_core::Look;
use lab_run::{Context, Printer, Stop, calls};
use lab_script::{Outcome, StreamAction, StreamOutcome, Verb};

impl Streams {
    /// Opens a stream, and reports it.
    pub fn open<K: Sink>(
        &mut self,
        context: &Context,
        printer: &mut Printer,
        sink: &mut K,
    ) -> Result<(), Stop>
        requires { IsSomeLink self.old.link }
        ensures made { (w : ℕ) (past : Past) → IsStreams w past self.old
            → let s = open_step past context.now.line in
            OnOk result (IsStreams w (after past (s ∷ [])) self.new) }
        ensures printed { (w : ℕ) (past : Past) → IsStreams w past self.old
            → let s = open_step past context.now.line in
            let at = printout K.output K.faults in
            Prints (stream_report (s ∷ [])) result
            (at printer.old sink.old) (at printer.new sink.new) }
    {
        let outcome = self.link.open()?;
        printer.line(sink, context.line, Verb::StreamOpen, None, &outcome)
    }

    /// Does what a line asks of one side of the link, and reports it.
    pub fn act<K: Sink>(
        &mut self,
        context: &Context,
        side: Side,
        action: StreamAction,
        printer: &mut Printer,
        sink: &mut K,
    ) -> Result<(), Stop>
        requires stands { IsSomeLink self.old.link }
        requires in_range { IsStreamAction action }
        ensures made { (past : Past) → let w = context.now.window in
            IsStreams w past self.old
            → let steps = action_steps w past context.now.moment context.now.line side action in
            OnOk result (IsStreams w (after past steps) self.new) }
        ensures printed { (past : Past) → let w = context.now.window in
            IsStreams w past self.old
            → let steps = action_steps w past context.now.moment context.now.line side action in
            let at = printout K.output K.faults in
            Prints (stream_report steps) result
            (at printer.old sink.old) (at printer.new sink.new) }
    {
        match action {
            StreamAction::Write { sid, bytes } => {
                self.write(context, side, sid, &bytes, printer, sink)
            }
            StreamAction::Close { sid } => self.close(context, side, sid, printer, sink),
            StreamAction::Push { most } => self.push(context, side, most, printer, sink),
            StreamAction::Take { sid, most } => {
                self.take(context, side, sid, most, printer, sink)
            }
        }
    }

    /// Writes to a stream, and reports it.
    fn write<K: Sink>(
        &mut self,
        context: &Context,
        side: Side,
        sid: u32,
        bytes: &Bytes,
        printer: &mut Printer,
        sink: &mut K,
    ) -> Result<(), Stop>
        requires some { 1 ≤ length bytes.now }
        requires few { length bytes.now ≤ max_written_data }
        ensures made { (w : ℕ) (past : Past) → IsStreams w past self.old
            → let s = write_step past context.now.line side sid bytes.now in
            OnOk result (IsStreams w (after past (s ∷ [])) self.new) }
        ensures printed { (w : ℕ) (past : Past) → IsStreams w past self.old
            → let s = write_step past context.now.line side sid bytes.now in
            let at = printout K.output K.faults in
            Prints (stream_report (s ∷ [])) result
            (at printer.old sink.old) (at printer.new sink.new) }
    {
        let outcome = self.link.write(side, sid, bytes)?;
        printer.line(sink, context.line, Verb::StreamWrite, Some(side), &outcome)
    }

    /// Closes a stream, and reports it.
    fn close<K: Sink>(
        &mut self,
        context: &Context,
        side: Side,
        sid: u32,
        printer: &mut Printer,
        sink: &mut K,
    ) -> Result<(), Stop>
        ensures made { (w : ℕ) (past : Past) → IsStreams w past self.old
            → let s = close_step past context.now.line side sid in
            OnOk result (IsStreams w (after past (s ∷ [])) self.new) }
        ensures printed { (w : ℕ) (past : Past) → IsStreams w past self.old
            → let s = close_step past context.now.line side sid in
            let at = printout K.output K.faults in
            Prints (stream_report (s ∷ [])) result
            (at printer.old sink.old) (at printer.new sink.new) }
    {
        let outcome = self.link.close(side, sid)?;
        printer.line(sink, context.line, Verb::StreamClose, Some(side), &outcome)
    }

    /// Takes bytes of a stream, and feeds what waits; reports both.
    fn take<K: Sink>(
        &mut self,
        context: &Context,
        side: Side,
        sid: u32,
        most: usize,
        printer: &mut Printer,
        sink: &mut K,
    ) -> Result<(), Stop>
        requires { 0 < most }
        ensures made { (w : ℕ) (past : Past) → IsStreams w past self.old
            → let s = take_step past context.now.line side sid most in
            let fed = feed_step (after past (s ∷ [])) context.now.line side in
            OnOk result (IsStreams w (after past (s ∷ fed ∷ [])) self.new) }
        ensures printed { (w : ℕ) (past : Past) → IsStreams w past self.old
            → let s = take_step past context.now.line side sid most in
            let fed = feed_step (after past (s ∷ [])) context.now.line side in
            let at = printout K.output K.faults in
            Prints (stream_report (s ∷ fed ∷ [])) result
            (at printer.old sink.old) (at printer.new sink.new) }
    {
        let outcome = self.link.take(side, sid, most)?;
        printer.line(sink, context.line, Verb::StreamTake, Some(side), &outcome)?;
        self.feed(context, side, printer, sink)
    }

    /// Puts in outgoing bytes as an item where the end has room, and reports it.
    fn push<K: Sink>(
        &mut self,
        context: &Context,
        side: Side,
        most: usize,
        printer: &mut Printer,
        sink: &mut K,
    ) -> Result<(), Stop>
        requires stands { IsSomeLink self.old.link }
        requires small { most ≤ max_payload }
        ensures made { (w : ℕ) (past : Past) → IsStreams w past self.old
            → let s = push_step w past context.now.moment context.now.line side most in
            OnOk result (IsStreams w (after past (s ∷ [])) self.new) }
        ensures printed { (w : ℕ) (past : Past) → IsStreams w past self.old
            → let s = push_step w past context.now.moment context.now.line side most in
            let at = printout K.output K.faults in
            Prints (stream_report (s ∷ [])) result
            (at printer.old sink.old) (at printer.new sink.new) }
    {
        let look = self.look(side);
        if look.room == 0 {
            let outcome = outcome_of_no_room(&look);
            return printer.line(sink, context.line, Verb::StreamPush, Some(side), &outcome);
        }
        let bytes = self.link.give_out(side, most)?;
        if bytes.is_empty() {
            let outcome = Outcome::Stream(StreamOutcome::Empty);
            return printer.line(sink, context.line, Verb::StreamPush, Some(side), &outcome);
        }
        self.put(context, side, bytes, printer, sink)
    }

    /// Where the end of a side stands.
    fn look(&self, side: Side) -> Look
        ensures { (w : ℕ) (events : List Event) → IsPair w events self.now.pair
            → result ≡ look_at w (history_of side events) }
    {
        match side {
            Side::Plugin => self.pair.plugin.end.look(),
            Side::Agent => self.pair.agent.end.look(),
        }
    }

    /// Puts in bytes that a Mux gave out as an item, and reports it.
    fn put<K: Sink>(
        &mut self,
        context: &Context,
        side: Side,
        bytes: Bytes,
        printer: &mut Printer,
        sink: &mut K,
    ) -> Result<(), Stop>
        requires { length bytes ≤ max_payload }
        ensures made { (w : ℕ) (past : Past) → IsStreams w past self.old
            → let put = actions.Put (stream_item bytes) in
            let s = step_of w past.events context.now.moment context.now.line side put in
            OnOk result (IsStreams w (after past (plain_step s ∷ [])) self.new) }
        ensures printed { (w : ℕ) (past : Past) → IsStreams w past self.old
            → let put = actions.Put (stream_item bytes) in
            let s = step_of w past.events context.now.moment context.now.line side put in
            let at = printout K.output K.faults in
            Prints (report_line context.now.line verbs.StreamPush (Some side) s.outcome) result
            (at printer.old sink.old) (at printer.new sink.new) }
    {
        let item = Item {
            ptype: STREAM_TYPE,
            payload: bytes,
        };
        let outcome = self.put_item(context, side, item);
        printer.line(sink, context.line, Verb::StreamPush, Some(side), &outcome)
    }

    /// Puts in an item at one end.
    fn put_item(&mut self, context: &Context, side: Side, item: Item) -> Outcome
        requires { length item.payload ≤ max_payload }
        ensures told { (w : ℕ) (past : Past) → IsStreams w past self.old
            → let put = actions.Put item in
            let s = step_of w past.events context.now.moment context.now.line side put in
            result ≡ s.outcome }
        ensures made { (w : ℕ) (past : Past) → IsStreams w past self.old
            → let put = actions.Put item in
            let s = step_of w past.events context.now.moment context.now.line side put in
            IsStreams w (after past (plain_step s ∷ [])) self.new }
    {
        let line = context.line;
        let now = context.moment;
        match side {
            Side::Plugin => calls::put(&mut self.pair.plugin.end, item, line, now),
            Side::Agent => calls::put(&mut self.pair.agent.end, item, line, now),
        }
    }
}
