//! What holds of all turns of a link writer, and of all steps of a link reader.

ghost use Rattle.session_workers.specs.ReaderLaws.{AddedIsReleased, LostBySix};
ghost use Rattle.session_workers.specs.WriterLaws.{EmissionsAreSent, TextsAreOnceForEachOpening};

/// The binary messages that a link writer sent are, in order, the encodings of what the end emitted
/// in its turns, without those whose send failed or wanted memory.
pub fn emissions_are_sent()
    ensures { EmissionsAreSent }
{}

/// A link writer sends the end-of-session text at most as often as the shelf showed connections.
pub fn texts_are_once_for_each_opening()
    ensures { TextsAreOnceForEachOpening }
{}

/// Where a link reader lost its link, its last six dials failed.
pub fn lost_by_six()
    ensures { LostBySix }
{}

/// What a link reader added to the shelf is the first of what was released to it, in order; it is
/// all of that unless the reader ended for want of memory.
pub fn added_is_released()
    ensures { AddedIsReleased }
{}
