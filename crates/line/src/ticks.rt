// The ticks of a line, and whether a pulse is on.
ghost use Rattle.std.specs.Prelude.{◌≡◌};
ghost use Rattle.line.specs.Lines.{move_of, tick_of, on_of};

use super::{Line, Ticked};
use state::Moved;

impl Line {
    // One tick: the state after it, and what it tells.
    pub fn moved(self) -> Moved
        ensures { result ≡ move_of self }
    {
        ticking::moved(self.pulse, self.spacing, self.schedule, self.state)
    }

    // One tick.
    #[tactic(auto, unfolding(crate::specs::Lines::tick_of))]
    pub fn tick(self) -> Ticked
        ensures { result ≡ tick_of self }
    {
        let moved = self.moved();
        Ticked {
            line: self.with_state(moved.state),
            tick: moved.tick,
        }
    }

    // Whether a pulse is on.
    #[tactic(auto, unfolding(crate::specs::Lines::on_of))]
    pub fn is_on(self) -> bool
        ensures { result ≡ on_of self }
    {
        self.state.is_on(self.pulse)
    }
}
