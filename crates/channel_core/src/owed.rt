//! The acknowledgements that an end owes: a queue of at most as many as its window, the oldest first.

ghost use Rattle.std.specs.Prelude.{◌≡◌, ◌==◌, ◌≤◌, ◌<◌, ◌^◌, [], drop, IfOk, IfSome, slice_get};
ghost use Rattle.std.specs.List.{list_any};
ghost use Rattle.chan_values.specs.Limits.{max_window};
ghost use Rattle.channel_core.specs.History.{owed_with};

use chan_values::NoMemory;
use std::alloc::Global;
use std::collections::VecDeque;
use std::marker::Model;

/// The pending acknowledgements: number and MessageId of each message that was heard.
#[derive(Drop)]
pub struct Owed {
    limit: u64,
    acks: VecDeque<(u64, [u8; 16])>,
}

impl Model for Owed {
    ghost use Rattle.std.specs.VecDeque.{deque_capacity};
    ghost use Rattle.channel_core.specs.Owed.{HasRoom, OwedState};

    ghost Value = { OwedState };

    ghost view = { λ o. record { limit = o.limit; acks = o.acks.items } };

    ghost invariant = { λ o. HasRoom o.limit (deque_capacity o.acks) o.acks.items };
}

impl Owed {
    /// A queue for at most `limit` acknowledgements. It takes the memory for all of them.
    pub fn new(alloc: Global, limit: u64) -> Result<Owed, NoMemory>
        requires { limit ≤ max_window }
        ensures { IfOk result (λ owed. owed ≡ record { limit = limit; acks = [] }) }
    {
        Ok(Owed {
            limit,
            acks: VecDeque::with_capacity(alloc, limit as usize)?,
        })
    }

    /// Owes an acknowledgement behind the others, unless it is owed already or there is no room.
    pub fn note(&mut self, seq: u64, id: [u8; 16])
        requires { seq < 2 ^ 63 }
        ensures { self.new
            ≡ record self.old { acks = owed_with self.old.limit self.old.acks seq id } }
    {
        if self.is_owed(seq) || self.acks.len() as u64 >= self.limit {
            return;
        }
        self.acks.push_back_reserved((seq, id));
    }

    /// Takes out the oldest.
    pub fn pop(&mut self) -> Option<(u64, [u8; 16])>
        ensures first { result ≡ slice_get self.old.acks 0 }
        ensures rest { self.new ≡ record self.old { acks = drop 1 self.old.acks } }
        ensures numbered { IfSome result (λ ack. ack.0 < 2 ^ 63) }
    {
        self.acks.pop_front()
    }

    /// Whether an acknowledgement of this number is owed.
    fn is_owed(&self, seq: u64) -> bool
        ensures { result ≡ list_any (λ p. seq == p.0) self.now.acks }
    {
        self.acks.iter().any(|ack| seq == ack.0)
    }
}
