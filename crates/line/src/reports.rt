// The report period and audits.
ghost use Rattle.std.specs.Prelude.{◌≡◌};
ghost use Rattle.line.specs.Lines.{period_of, no_period_of, audit_of};

use super::{Answered, Audited, Line};
use descriptor::Refusal;

// Stays: setting and clearing are two calls, since the one may be refused, with 2, and the other never is.
impl Line {
    // Sets the report period; pcslr stays.
    #[tactic(auto, unfolding(crate::specs::Lines::period_of, descriptor::specs::Refusals::ruling))]
    pub fn set_period(mut self, rp: u32) -> Answered
        ensures { result ≡ period_of self rp }
    {
        if rp == 0 {
            return self.refusing(Refusal::Period);
        }
        self.state.counters.rp = Some(rp);
        self.accepting(0)
    }

    // Clears the report period; pcslr stays.
    #[tactic(auto, unfolding(crate::specs::Lines::no_period_of))]
    pub fn clear_period(mut self) -> Answered
        ensures { result ≡ no_period_of self }
    {
        self.state.counters.rp = None;
        self.accepting(0)
    }

    // Both counters; the line is as it was.
    #[tactic(auto, unfolding(crate::specs::Lines::audit_of))]
    pub fn audit(self) -> Audited
        ensures { result ≡ audit_of self }
    {
        Audited {
            line: self,
            cpc: self.state.counters.cpc,
            pcslr: self.state.counters.pcslr,
        }
    }
}
