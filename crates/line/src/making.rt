// Making a line.
ghost use Rattle.std.specs.Prelude.{◌≡◌};
ghost use Rattle.line.specs.Lines.{idle_line, fresh_line, blank_line, make_of, making_verdict_of};

use super::{Line, Verdict};
use descriptor::{Configuration, Refusal};
use state::{Counters, State};
use tariff::{Schedule, Timed};

impl Line {
    // No tariff, burst or report period, and counters and serial 0.
    fn idle(pulse: u32, spacing: u32, clock: u32, since: u32) -> Line
        ensures { result ≡ idle_line pulse spacing clock since }
    {
        Line {
            pulse,
            spacing,
            serial: 0,
            state: State {
                timed: Timed::default(),
                clock,
                since,
                burst: None,
                counters: Counters::default(),
            },
            schedule: Schedule::default(),
        }
    }

    // A line of this configuration: with no earlier front its rules ask nothing.
    #[tactic(auto, unfolding(crate::specs::Lines::make_of, crate::specs::Lines::fresh_line))]
    pub fn make(given: Configuration) -> Result<Line, Refusal>
        ensures { result ≡ make_of given.pulse given.gap given.clock }
    {
        if !given.is_sound() {
            return Err(Refusal::Configuration);
        }
        let spacing = given.pulse + given.gap;
        Ok(Line::idle(given.pulse, spacing, given.clock, spacing))
    }
}

// What making a line is answered: no burst pulse is cancelled, or why the configuration was turned down.
pub fn making_verdict(made: Result<Line, Refusal>) -> Verdict
    ensures { result ≡ making_verdict_of made }
{
    made.map(|_| 0)
}

// A blank line, which begins no pulse: an ArrayVec of lines has it where no line was put yet.
impl Default for Line {
    ghost is_default = { λ line. line ≡ blank_line };

    #[tactic(auto, unfolding(crate::specs::Lines::blank_line))]
    fn default() -> Line {
        Line::idle(0, u32::MAX, 0, 0)
    }
}
