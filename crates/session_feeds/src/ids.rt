//! The ids of the messages that a worker puts in.

ghost use Rattle.std.specs.Prelude.{◌≡◌, ◌+◌, ◌%◌, ◌^◌, ◌++◌};
ghost use Rattle.session_feeds.specs.Ids.{first_8, id_of};

/// How many workers have ids of their own: 2^24.
const WORKERS: u64 = 16_777_216;

/// How many ids a worker makes before they begin again: 2^40.
const COUNTS: u64 = 1_099_511_627_776;

/// What a worker makes ids of.
#[derive(Clone, Copy, Debug)]
pub struct Ids {
    /// What was drawn for the run.
    pub base: [u8; 16],
    /// The number of the worker.
    pub worker: u32,
    /// How many ids it made, modulo 2^64.
    pub count: u64,
}

impl Ids {
    /// No ids were made yet.
    pub fn new(base: [u8; 16], worker: u32) -> Ids
        ensures { result ≡ record { base = base; worker = worker; count = 0 } }
    {
        Ids {
            base,
            worker,
            count: 0,
        }
    }

    /// The next id: the first 8 bytes of the base, 3 of the worker's number and 5 of the count.
    pub fn next(&mut self) -> [u8; 16]
        ensures id { result ≡ id_of self.old.base self.old.worker self.old.count }
        ensures base { self.new.base ≡ self.old.base }
        ensures worker { self.new.worker ≡ self.old.worker }
        ensures count { self.new.count ≡ (self.old.count + 1) % 2 ^ 64 }
    {
        let worker = u64::from(self.worker) % WORKERS;
        let place = worker * COUNTS + self.count % COUNTS;
        self.count = self.count.wrapping_add(1);
        join_halves(self.base, place.to_be_bytes())
    }
}

/// The first half of the base, and then these bytes.
fn join_halves(base: [u8; 16], low: [u8; 8]) -> [u8; 16]
    ensures { result ≡ first_8 base ++ first_8 low }
{
    [
        base[0], base[1], base[2], base[3], base[4], base[5], base[6], base[7], low[0], low[1],
        low[2], low[3], low[4], low[5], low[6], low[7],
    ]
}
