//! How the workers of a run ended.

use session_crews::Refusals;
use session_delivery::DeliverEnd;
use session_workers::{ReadEnd, WorkerEnd};

/// How the workers of a run ended. None stands for one that was not started.
#[derive(Debug, Drop)]
pub(crate) struct Ends {
    /// How the link writer ended.
    pub writer: Option<WorkerEnd>,
    /// How the link reader ended.
    pub reader: Option<ReadEnd>,
    /// Whether the resend worker ended.
    pub resent: bool,
    /// The number on which the end gave up, if it did.
    pub gave_up: Option<u64>,
    /// Whether the deliverer was started.
    pub started: bool,
    /// How the deliverer ended.
    pub delivered: Option<DeliverEnd>,
    /// The refusals of memory, of feeders and of threads with which it and the workers of feeders
    /// ended.
    pub refusals: Refusals,
    /// Whether both sides agreed on the session.
    pub agreed: bool,
}
