//! What holds of all that a worker puts in.

ghost use Rattle.session_feeds.specs.PutLaws.{PutsAreGiven};

/// What a worker put in is the first of what it was given, in order, and all of it unless a put was
/// stopped.
pub fn puts_are_given()
    ensures { PutsAreGiven }
{}
