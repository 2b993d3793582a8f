// The state with another tariff, another burst or other counters, and the wait of a fresh tariff.
ghost use Rattle.std.specs.Prelude.{◌≡◌};
ghost use Rattle.state.specs.States.{with_tariff, with_burst, stopped, with_rate, origin_wait};

use super::{Counters, State};
use burst::Burst;
use tariff::Timed;

impl State {
    // Another tariff, and these counters.
    pub fn with_tariff(self, timed: Timed, counters: Counters) -> State
        ensures { result ≡ with_tariff self timed counters }
    {
        State {
            timed,
            counters,
            ..self
        }
    }

    // Another burst, or none.
    pub fn with_burst(self, burst: Option<Burst>) -> State
        ensures { result ≡ with_burst self burst }
    {
        State { burst, ..self }
    }

    // No tariff runs.
    pub fn stopped(self) -> State
        ensures { result ≡ stopped self }
    {
        self.with_tariff(Timed::default(), self.counters)
    }

    // A rate: the next slot stays.
    pub fn rated(self, interval: u32) -> State
        ensures { result ≡ with_rate self interval }
    {
        let timed = Timed {
            tariff: self.timed.tariff.rate(interval),
            ..self.timed
        };
        self.with_tariff(timed, self.counters)
    }

    // The ticks to the origin of a fresh tariff, on a line of this spacing.
    pub fn origin_wait(self, spacing: u32) -> u64
        ensures { result ≡ origin_wait spacing self }
    {
        u64::from(spacing.saturating_sub(self.since).max(1))
    }
}
