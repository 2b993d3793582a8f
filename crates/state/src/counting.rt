// The counters: a front adds 1 to both, and may give a report.
ghost use Rattle.std.specs.Prelude.{◌≡◌};
ghost use Rattle.state.specs.Rules.{report_due};
ghost use Rattle.state.specs.States.{count_of, count_by};

use super::{Count, Counters};
use answers::Front;

// Whether a front that leaves pcslr at n gives a report.
fn report_due(rp: Option<u32>, n: u32) -> bool
    ensures { result ≡ report_due rp n }
{
    rp.is_some_and(|rp| rp <= n)
}

impl Counters {
    // After a front. Counts are held at 4,294,967,295.
    #[tactic(auto, unfolding(crate::specs::States::count_of))]
    fn counted(self) -> Count
        ensures { result ≡ count_of self }
    {
        let pcslr = self.pcslr.saturating_add(1);
        let report = report_due(self.rp, pcslr);
        Count {
            counters: Counters {
                cpc: self.cpc.saturating_add(1),
                pcslr: if report { 0 } else { pcslr },
                rp: self.rp,
            },
            report,
        }
    }

    // After a tick with this front or none.
    #[tactic(auto, unfolding(crate::specs::States::count_by))]
    pub fn counted_by(self, front: Option<Front>) -> Count
        ensures { result ≡ count_by front self }
    {
        if front.is_some() {
            self.counted()
        } else {
            Count {
                counters: self,
                report: false,
            }
        }
    }
}
