// Quiet ticks: nothing is due, nothing ends, no burst pulse may start, and time goes on.
ghost use Rattle.std.specs.Prelude.{◌≡◌};
ghost use Rattle.state.specs.States.{quiet_of, waited_of};

use super::State;

impl State {
    // Whether the next tick is quiet, on a line of this pulse length and spacing.
    #[tactic(auto, unfolding(crate::specs::States::quiet_of))]
    pub fn is_quiet(self, pulse: u32, spacing: u32) -> bool
        ensures { result ≡ quiet_of pulse spacing self }
    {
        let since = burst::held_more(spacing, self.since);
        let waits = 1 < self.timed.wait || self.timed.tariff.is_idle();
        waits && !self.ends(pulse, since) && burst::is_quiet(self.burst, pulse, spacing <= since)
    }

    // A quiet tick.
    #[tactic(auto, unfolding(crate::specs::States::waited_of))]
    pub fn tick_quietly(&mut self, spacing: u32)
        ensures { self.new ≡ waited_of spacing self.old }
    {
        self.timed.wait = self.timed.wait.saturating_sub(1);
        self.clock = self.clock.wrapping_add(1);
        self.since = burst::held_more(spacing, self.since);
        if let Some(burst) = &mut self.burst {
            *burst = burst.older();
        }
    }
}
