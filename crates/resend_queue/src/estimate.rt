//! The round-trip estimator: how long a message may stay unacknowledged before it is sent again.
//!
//! It keeps the smoothed round-trip time and the mean deviation of RFC 6298 as whole numbers,
//! with the gains 1/8 and 1/4. All durations are milliseconds.

ghost use Rattle.std.specs.Prelude.{◌≡◌};
ghost use Rattle.resend_queue.specs.RoundTrips.{no_sample, after_sample};

use std::marker::Model;

/// The longest round trip that a sample counts. A longer one counts as this.
pub const MAX_SAMPLE: u64 = 600_000;

/// The shortest part of the timeout that stands for the deviation.
const MIN_DEVIATION: u64 = 10;

/// The longest timeout.
const MAX_TIMEOUT: u64 = 1000;

/// The retransmission timeout as the samples so far set it.
#[derive(Clone, Copy, Debug)]
pub struct Estimate {
    // Eight times the smoothed round-trip time, so that the gain 1/8 loses no millisecond.
    srtt8: u64,
    // Four times the mean deviation.
    var4: u64,
    // Before the first sample this is not what the other two give.
    timeout: u64,
}

impl Model for Estimate {
    ghost use Rattle.std.specs.Prelude.{◌+◌, ◌*◌, ◌≤◌};
    ghost use Rattle.resend_queue.specs.RoundTrips.{RoundTrip};

    ghost Value = { RoundTrip };

    ghost view = { λ e. record { srtt8 = e.srtt8; var4 = e.var4; timeout = e.timeout } };

    ghost invariant = { λ e.
        (e.srtt8 ≤ 8 * 600000 + 7) × (e.var4 ≤ 4 * 600000 + 3) × (e.timeout ≤ 1000) };

    ghost inverse = { λ v. record { srtt8 = v.srtt8; var4 = v.var4; timeout = v.timeout } };
}

impl Estimate {
    /// An estimate with no sample.
    pub fn new() -> Estimate
        ensures { result ≡ no_sample }
    {
        Estimate {
            srtt8: 800,
            var4: 0,
            timeout: 200,
        }
    }

    /// Takes the time from a message's last transmission to its acknowledgement.
    pub fn sample(&mut self, round_trip: u64)
        ensures { self.new ≡ after_sample self.old round_trip }
    {
        let round_trip = round_trip.min(MAX_SAMPLE);
        let smoothed = self.srtt8 / 8;
        self.var4 = self.var4 - self.var4 / 4 + smoothed.abs_diff(round_trip);
        self.srtt8 = self.srtt8 - smoothed + round_trip;
        let timeout = self.srtt8 / 8 + self.var4.max(MIN_DEVIATION);
        self.timeout = timeout.min(MAX_TIMEOUT);
    }

    /// How long a message may stay unacknowledged: at most one second.
    pub fn timeout(&self) -> u64
        ensures { result ≡ self.now.timeout }
    {
        self.timeout
    }
}

#[cfg(test)]
mod tests {
    use super::Estimate;
    use std::test::Fail;

    #[test]
    fn timeout_follows_the_samples(rt: HostRuntime) -> Result<(), Fail> {
        assert!(rt; Estimate::new().timeout() == 200, "with no sample");
        let cases = [
            (700_000, 600_700, 599_900, 1000),
            (0, 700, 100, 187),
            (180, 880, 80, 190),
        ];
        for (round_trip, srtt8, var4, timeout) in cases {
            let mut estimate = Estimate::new();
            estimate.sample(round_trip);
            assert!(rt; estimate.srtt8 == srtt8, "smoothed after {round_trip} ms");
            assert!(rt; estimate.var4 == var4, "deviation after {round_trip} ms");
            assert!(rt;
                estimate.timeout() == timeout,
                "timeout after {round_trip} ms"
            );
        }
        Ok(())
    }
}
