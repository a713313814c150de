//! What brings a session's input.

ghost use Rattle.std.specs.Prelude.{◌≡◌, ◌≤◌, ◌++◌, None};
ghost use Rattle.chan_io.specs.Faults.{Rises};
ghost use Rattle.session_feeds.specs.Feeding.{Fits, IfAnother, IfFailed, came_by, marks_by, pieces_by};
ghost use Rattle.session_feeds.specs.Marks.{IsNew, Told};

use chan_values::Item;

/// What a feeder gives.
#[derive(Drop)]
pub enum Fed<F> {
    /// An item that is to be put in: at most 65,536 payload bytes.
    Piece(Item),
    /// A feeder that is to be run beside it.
    Another(F),
    /// Nothing now.
    Quiet,
    /// Nothing any more.
    Over,
    /// A call of its source or of its ports failed.
    Failed,
    /// There was no memory.
    NoMemory,
}

/// How a feeder came to its end.
#[derive(Clone, Copy, Debug, PartialEq, Eq)]
pub enum Came {
    /// It gave all.
    Over,
    /// A call of its source or of its ports failed.
    Failed,
}

/// What brings a session's input. It runs in a worker of its own.
pub trait Feeder: Send + Drop + Sized {
    /// What it tells of itself: the number by which contracts know it, which stays; those of the
    /// feeders and the pieces that it gave; how it came to its end; how many of its calls failed.
    ghost told: { Self → Told };

    /// Gives the next. It may wait for its source, which ends the wait once the session is stopped.
    /// One that has more to give gives it before it is quiet.
    fn next(&mut self) -> Fed<Self>
        requires { (told self.old).came ≡ None }
        ensures mark { (told self.new).mark ≡ (told self.old).mark }
        ensures children { (told self.new).children
            ≡ (told self.old).children ++ marks_by told result }
        ensures pieces { (told self.new).pieces ≡ (told self.old).pieces ++ pieces_by result }
        ensures came { (told self.new).came ≡ came_by result }
        ensures fits { Fits result }
        ensures another { IfAnother result (λ f. IsNew (told f)) }
        ensures failed { IfFailed result
            (Rises (told self.old).faults (told self.new).faults) }
        ensures counted { (told self.old).faults ≤ (told self.new).faults };
}
