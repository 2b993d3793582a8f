// Hook events.
ghost use Rattle.std.specs.Prelude.{◌≡◌};
ghost use Rattle.line.specs.Lines.{hook_of};

use super::{Answered, Line};
use descriptor::Hook;

impl Line {
    // A hook event: keep leaves the signals, stop ends the tariff and cancels the burst.
    #[tactic(auto, unfolding(crate::specs::Lines::hook_of))]
    pub fn hook(self, event: Hook) -> Answered
        ensures { result ≡ hook_of self event }
    {
        match event {
            Hook::Keep => self.accepting(0),
            Hook::Stop => {
                let stopped = self.state.stopped().with_burst(None);
                self.with_state(stopped)
                    .accepting(burst::owed(self.state.burst))
            }
        }
    }
}
