//! What the queue keeps of one message, beside its number.

ghost use Rattle.std.specs.Prelude.{◌≡◌, ◌&&◌, not};
ghost use Rattle.resend_queue.specs.Queue.{is_past};

use chan_values::Item;

/// A message that is not acknowledged.
#[derive(Debug, Drop)]
pub struct Slot {
    pub id: [u8; 16],
    pub date: u64,
    pub item: Item,
    pub last: bool,
    /// The moment of its last transmission.
    pub emitted: Option<u64>,
}

impl Slot {
    /// Whether its timer expires at this moment, where this tells whether it was transmitted since
    /// the last reopening and whether it is marked.
    pub fn is_overdue(&self, sent: bool, due: bool, now: u64, timeout: u64) -> bool
        ensures { result ≡ (sent && (not due && is_past self.now.emitted now timeout)) }
    {
        let is_past = match self.emitted {
            None => false,
            Some(moment) => now.saturating_sub(moment) > timeout,
        };
        sent && !due && is_past
    }
}
