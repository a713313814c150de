//! What runs meet, and what each comes to.

use super::coming::Coming;
use super::runs::{ACCEPTED, ENDED, Met, REFUSED};

/// What a run meets, and what it comes to.
#[derive(Clone, Copy)]
pub(crate) struct Case {
    pub(crate) what: &'static str,
    pub(crate) met: Met,
    /// What the session does.
    pub(crate) serving: Serving,
    /// The starts that fail: of the link writer 0, of the resend worker 1, of the link reader 2, of
    /// the deliverer 3.
    pub(crate) unstarted: &'static [u64],
    /// The outcome's name.
    pub(crate) outcome: &'static str,
    /// How many dials were made, where no schedule changes it.
    pub(crate) dials: Option<usize>,
    /// What the session took.
    pub(crate) letters: &'static str,
}

/// What a session does in a case.
#[derive(Clone, Copy, PartialEq, Eq)]
pub(crate) enum Serving {
    /// It takes all parcels, and both sides agreed on it.
    Agreed,
    /// The same, and they did not.
    Unagreed,
    /// It refuses the second parcel.
    Refuses,
    /// It lets out a feeder that gives three pieces.
    Feeds,
    /// It lets out a feeder that fails at once.
    Fails,
}

/// Nothing comes.
const NOTHING: Met = Met {
    replies: &[],
    missed: &[],
    coming: &[],
    undrawn: false,
};

/// Two messages, a connection that is lost, and the end of the session.
const ONE: Met = Met {
    replies: &[ACCEPTED, ENDED],
    missed: &[],
    coming: &[
        Coming::Message(0, b'a', false),
        Coming::Message(1, b'b', false),
        Coming::Gone,
    ],
    undrawn: false,
};

/// A connection on which nothing comes, and the end of the session.
const QUIET: Met = Met {
    replies: &[ACCEPTED, ENDED],
    missed: &[],
    coming: &[Coming::Gone],
    undrawn: false,
};

/// Three messages, and then the connection is lost; three times.
const THREE_BY_THREE: &[Coming] = &[
    Coming::Message(0, b'a', false),
    Coming::Message(1, b'b', false),
    Coming::Message(2, b'c', false),
    Coming::Gone,
    Coming::Message(3, b'd', false),
    Coming::Message(4, b'e', false),
    Coming::Message(5, b'f', false),
    Coming::Gone,
    Coming::Message(6, b'g', false),
    Coming::Message(7, b'h', false),
    Coming::Message(8, b'i', true),
    Coming::Gone,
];

/// Messages that are damaged, foreign or early, a text, and the same messages whole and in order.
const DAMAGED: &[Coming] = &[
    Coming::Damaged(0, b'a'),
    Coming::Text,
    Coming::Message(1, b'b', false),
    Coming::Foreign(0, b'x'),
    Coming::Message(0, b'a', false),
    Coming::Message(0, b'a', false),
    Coming::Gone,
];

pub(crate) const CASES: &[Case] = &[
    Case {
        what: "a run over a link that is lost after every third message",
        met: Met {
            replies: &[ACCEPTED, ACCEPTED, ACCEPTED, ENDED],
            missed: &[],
            coming: THREE_BY_THREE,
            undrawn: false,
        },
        serving: Serving::Agreed,
        unstarted: &[],
        outcome: "ended",
        dials: Some(4),
        letters: "abcdefghi.",
    },
    Case {
        what: "a run whose messages are damaged",
        met: Met {
            replies: &[ACCEPTED, ENDED],
            missed: &[],
            coming: DAMAGED,
            undrawn: false,
        },
        serving: Serving::Agreed,
        unstarted: &[],
        outcome: "ended",
        dials: Some(2),
        letters: "ab",
    },
    Case {
        what: "a run whose dialer fails for a while",
        met: Met {
            replies: &[ACCEPTED, ENDED],
            missed: &[0, 1, 2, 3, 4, 6, 7, 8, 9, 10],
            coming: &[Coming::Message(0, b'a', false), Coming::Gone],
            undrawn: false,
        },
        serving: Serving::Agreed,
        unstarted: &[],
        outcome: "ended",
        dials: Some(12),
        letters: "a",
    },
    Case {
        what: "a run that hears the closing",
        met: Met {
            replies: &[ACCEPTED],
            missed: &[],
            coming: &[Coming::Message(0, b'a', false), Coming::Closing],
            undrawn: false,
        },
        serving: Serving::Agreed,
        unstarted: &[],
        outcome: "ended",
        dials: Some(1),
        letters: "a",
    },
    Case {
        what: "a run whose dials fail",
        met: NOTHING,
        serving: Serving::Agreed,
        unstarted: &[],
        outcome: "link lost",
        dials: Some(6),
        letters: "",
    },
    Case {
        what: "a run whose opening is refused",
        met: Met {
            replies: &[REFUSED],
            missed: &[],
            coming: &[],
            undrawn: false,
        },
        serving: Serving::Agreed,
        unstarted: &[],
        outcome: "refused",
        dials: Some(1),
        letters: "",
    },
    Case {
        what: "a run whose first reply tells that the session has ended",
        met: Met {
            replies: &[ENDED],
            missed: &[],
            coming: &[],
            undrawn: false,
        },
        serving: Serving::Agreed,
        unstarted: &[],
        outcome: "refused",
        dials: Some(1),
        letters: "",
    },
    Case {
        what: "a run whose reply does not read",
        met: Met {
            replies: &["{"],
            missed: &[],
            coming: &[],
            undrawn: false,
        },
        serving: Serving::Agreed,
        unstarted: &[],
        outcome: "refused",
        dials: Some(1),
        letters: "",
    },
    Case {
        what: "a run whose link writer is not started",
        met: NOTHING,
        serving: Serving::Agreed,
        unstarted: &[0],
        outcome: "no thread",
        dials: Some(0),
        letters: "",
    },
    Case {
        what: "a run whose resend worker is not started",
        met: NOTHING,
        serving: Serving::Agreed,
        unstarted: &[1],
        outcome: "no thread",
        dials: Some(0),
        letters: "",
    },
    Case {
        what: "a run whose link reader is not started",
        met: NOTHING,
        serving: Serving::Agreed,
        unstarted: &[2],
        outcome: "no thread",
        dials: Some(0),
        letters: "",
    },
    Case {
        what: "a run whose deliverer is not started",
        met: ONE,
        serving: Serving::Agreed,
        unstarted: &[3],
        outcome: "no thread",
        dials: None,
        letters: "",
    },
    Case {
        what: "a run of which nobody is started",
        met: NOTHING,
        serving: Serving::Agreed,
        unstarted: &[0, 1, 2, 3],
        outcome: "no thread",
        dials: Some(0),
        letters: "",
    },
    Case {
        what: "a run on which the sides did not agree",
        met: ONE,
        serving: Serving::Unagreed,
        unstarted: &[],
        outcome: "unagreed",
        dials: Some(2),
        letters: "ab",
    },
    Case {
        what: "a run whose session refuses a parcel",
        met: ONE,
        serving: Serving::Refuses,
        unstarted: &[],
        outcome: "fault",
        dials: None,
        letters: "a",
    },
    Case {
        what: "a run whose feeder gives pieces",
        met: ONE,
        serving: Serving::Feeds,
        unstarted: &[],
        outcome: "ended",
        dials: Some(2),
        letters: "ab",
    },
    Case {
        what: "a run whose feeder fails",
        met: QUIET,
        serving: Serving::Fails,
        unstarted: &[],
        outcome: "feed fault",
        dials: None,
        letters: "",
    },
    Case {
        what: "a run whose base is not drawn",
        met: Met {
            replies: &[],
            missed: &[],
            coming: &[],
            undrawn: true,
        },
        serving: Serving::Agreed,
        unstarted: &[],
        outcome: "entropy fault",
        dials: Some(0),
        letters: "",
    },
];
