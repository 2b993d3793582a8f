// The pulses of the two windows.
ghost use Rattle.std.specs.Prelude.{◌≡◌, ◌<◌};
ghost use Rattle.fractions.specs.Rounding.{rounded_half_up};
ghost use Rattle.phase_total.specs.Windows.{sent, second_count};
ghost use Rattle.phase_total.specs.Told.{map_in};

use super::Charging;
use super::dividing::Divided;

// p/q rounded half up. The sum 2 × p + q may not fit in 64 bits, so the rest of the division tells.
fn rounded_half_up(p: u64, q: u64) -> u64
    requires { 0 < q }
    ensures { result ≡ rounded_half_up p q }
{
    let rest = p % q;
    if rest >= q - rest { p / q + 1 } else { p / q }
}

impl Divided {
    // What the first window sends.
    fn sent(self) -> u64
        ensures { result ≡ sent (map_in self.map) self.charging }
    {
        pulse_map::pulses_in(self.map, self.whole()).unwrap()
    }

    // The exact rest, rounded half up and never below 0. The total is rounded first, and what is sent is then taken away.
    #[tactic(auto, using(crate::proofs::Rest::less_first), unfolding(crate::specs::Windows::second_count))]
    pub(crate) fn second_count(self) -> u64
        ensures { result ≡ second_count (map_in self.map) self.charging }
    {
        let Charging { a, b, ci, pd, .. } = self.charging;
        let total = u64::from(a) * u64::from(pd);
        let share = u64::from(b) * u64::from(ci);
        rounded_half_up(total, share).saturating_sub(self.sent())
    }
}
