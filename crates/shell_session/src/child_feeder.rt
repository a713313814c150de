//! What feeds the outputs of a child.

ghost use Rattle.session_feeds.specs.Feeding.{came_by, marks_by, pieces_by};
ghost use Rattle.session_feeds.specs.Marks.{Told};
ghost use Rattle.shell_session.specs.Feeders.{IsWidened};

use crate::stream_feeder::StreamFeeder;
use chan_io::Source;
use session_feeds::{Fed, Feeder};

/// What feeds one of the two outputs of a child.
#[derive(Drop)]
pub enum ChildFeeder<A: Source, B: Source> {
    /// What the child writes.
    Output(StreamFeeder<A>),
    /// What it reports.
    Errors(StreamFeeder<B>),
}

impl<A: Source + Send + Drop, B: Source + Send + Drop> Feeder for ChildFeeder<A, B> {
    ghost use Rattle.shell_session.specs.Feeders.{told_of_errors, told_of_output};
    ghost use Rattle.shell_session.specs.declared.child_feeder.ChildFeeder.{ChildFeeder};

    ghost told = { λ f. elim f [ ChildFeeder.Output r ↦ told_of_output r | ChildFeeder.Errors r ↦ told_of_errors r ] };

    fn next(&mut self) -> Fed<ChildFeeder<A, B>> {
        match self {
            ChildFeeder::Output(feeder) => widen(feeder.next()),
            ChildFeeder::Errors(feeder) => widen(feeder.next()),
        }
    }
}

/// The same of another feeder. None gives a feeder.
fn widen<F: Drop, G: Drop>(fed: Fed<F>) -> Fed<G>
    ensures { IsWidened fed result }
{
    match fed {
        Fed::Piece(item) => Fed::Piece(item),
        Fed::Another(_feeder) => Fed::Quiet,
        Fed::Quiet => Fed::Quiet,
        Fed::Over => Fed::Over,
        Fed::Failed => Fed::Failed,
        Fed::NoMemory => Fed::NoMemory,
    }
}
