//! The laws of the channel: what holds in every history of an end, and in every world of two ends.
//!
//! A history of one end is legal where each call got the answer that `End` gives. The first laws say
//! what is read off a history in other words: since an entry that began it, and none that ended it.
//!
//! A world lists what happened at both ends, in order. It is legal where both histories are, and
//! honest where each message that an end heard had been emitted by the other. A call that wanted for
//! the memory of its answer heard nothing, whatever came to it. A world may lose, repeat and reorder
//! messages, drop connections and pause the ends as it likes.
//!
//! A law is the contract of a function with an empty body, by the definitions of `specs/`.

ghost use Rattle.channel_core.specs.Laws.{AcksKeepTheirOrder, ClosedIsClosedOnce, EachNumberIsOwedOnce, EachNumberIsTakenOnce, EmissionsCanBeEncoded, MarkedIsDueLast};
ghost use Rattle.channel_core.specs.Laws.{OwedIsHeardLast, PausedIsPausedLast, ReleasedIsInOrder, SentIsEmittedSinceOpened, UpIsOpenedLast, WindowBoundsMessages};
ghost use Rattle.channel_core.specs.Laws.{DirectionsEndApart, FinishedIsOnce, FinishedIsWhole, NothingFollowsTheLast, NothingIsPastTheEnd};
ghost use Rattle.channel_core.specs.Laws.{AcknowledgedHasArrived, ExchangeIsPossible, ExchangeIsShort, ExchangeReleasesAll, NothingIsBeyond, ReleasedIsPrefix, WorldsGoOn};

/// An end is up exactly where it was connected and the connection was not lost since.
pub fn up_is_opened_last()
    ensures { UpIsOpenedLast }
{}

/// An end is paused exactly where it heard a pause, and since then no start, and was not connected
/// anew.
pub fn paused_is_paused_last()
    ensures { PausedIsPausedLast }
{}

/// An end is closed exactly where it was closed once: from this side, by a closing that it heard, or
/// by a message that it gave up.
pub fn closed_is_closed_once()
    ensures { ClosedIsClosedOnce }
{}

/// A number was sent on the present connection exactly where it was given out, and no connection was
/// made since.
pub fn sent_is_emitted_since_opened()
    ensures { SentIsEmittedSinceOpened }
{}

/// A number is marked exactly where its retransmission timer expired, and it was not given out since.
pub fn marked_is_due_last()
    ensures { MarkedIsDueLast }
{}

/// An acknowledgement, by its number and MessageId, is owed exactly where its message was taken or
/// came late, with room to owe it, and its number was not acknowledged since.
pub fn owed_is_heard_last()
    ensures { OwedIsHeardLast }
{}

/// No number is owed twice.
pub fn each_number_is_owed_once()
    ensures { EachNumberIsOwedOnce }
{}

/// Acknowledgements go out in the order in which they came to be owed, and none is passed over.
pub fn acks_keep_their_order()
    ensures { AcksKeepTheirOrder }
{}

/// An end takes each sequence number at most once.
pub fn each_number_is_taken_once()
    ensures { EachNumberIsTakenOnce }
{}

/// What an end released are the items that it took, by number, up to the first that is missing.
pub fn released_is_in_order()
    ensures { ReleasedIsInOrder }
{}

/// An end answers at most once that the last item is released.
pub fn finished_is_once()
    ensures { FinishedIsOnce }
{}

/// After an item that was put in as the last no other is put in.
pub fn nothing_follows_the_last()
    ensures { NothingFollowsTheLast }
{}

/// The end of one direction leaves the other as it was, and closes nothing.
pub fn directions_end_apart()
    ensures { DirectionsEndApart }
{}

/// With the window w an end keeps at most w unacknowledged messages, w - 1 early items and w
/// acknowledgements that it owes.
pub fn window_bounds_messages()
    ensures { WindowBoundsMessages }
{}

/// What an end emits can be encoded, where each of its calls met its conditions.
pub fn emissions_can_be_encoded()
    ensures { EmissionsCanBeEncoded }
{}

/// A world goes on with any call that gets its answer and hears only what was emitted, and with any
/// that wants for the memory of its answer, whatever it was to hear.
pub fn worlds_go_on()
    ensures { WorldsGoOn }
{}

/// What each end released is a prefix of what the other end's user put in.
pub fn released_is_prefix()
    ensures { ReleasedIsPrefix }
{}

/// What an end was told as acknowledged is at the other end: released, or early.
pub fn acknowledged_has_arrived()
    ensures { AcknowledgedHasArrived }
{}

/// No message is answered as beyond the receive window, however late it comes.
pub fn nothing_is_beyond()
    ensures { NothingIsBeyond }
{}

/// No message is answered as past the end of its direction.
pub fn nothing_is_past_the_end()
    ensures { NothingIsPastTheEnd }
{}

/// An end has answered that the last item is released exactly where the other end was given its last
/// item, and all that was put in there is released.
pub fn finished_is_whole()
    ensures { FinishedIsWhole }
{}

/// After any legal and honest world, one exchange without a loss, at the end of which neither end is
/// closed, releases all the rest.
pub fn exchange_releases_all()
    ensures { ExchangeReleasesAll }
{}

/// There is such an exchange where neither end is closed.
pub fn exchange_is_possible()
    ensures { ExchangeIsPossible }
{}

/// Such an exchange takes at most 2w + 1 pulls of each end, the last of which finds nothing.
pub fn exchange_is_short()
    ensures { ExchangeIsShort }
{}
