// The pulses of a phase's charge intervals, over which its map repeats.
ghost use Rattle.std.specs.Prelude.{◌≡◌, ◌+◌, ◌-◌, ◌*◌, ◌≤◌};
ghost use Rattle.pulse_map.specs.Pulses.{pulses_in};
ghost use Rattle.pulse_map.specs.Answers.{pulses_answer};
ghost use Rattle.pulse_map.specs.Told.{count_told};

use super::map::Map;
use fractions::Parameters;

impl Map {
    // The X's of the first k intervals: those of each whole turn of the map, and those of the turn begun.
    fn xs_over(self, k: u64) -> u64
        ensures xs { result ≡ pulses_in 1 self.xs 0 self.ns k }
        ensures bound { result ≤ k }
    {
        let length = self.len();
        k / length * self.xs + self.xs_before(k % length)
    }
}

// The pulses of k intervals of which xs have an X.
fn weighed(p: Parameters, xs: u64, k: u32) -> u64
    requires { xs ≤ k }
    ensures { result ≡ xs * p.pcx + (k - xs) * p.pcn }
{
    xs * u64::from(p.pcx) + (u64::from(k) - xs) * u64::from(p.pcn)
}

// The number of pulses in the first k charge intervals of a phase; none is refusal 11.
pub fn pulses_in(p: Parameters, k: u32) -> Option<u64>
    ensures { count_told result ≡ pulses_answer p.pcx p.repx p.pcn p.repn k }
{
    let xs = Map::of(p.repx, p.repn)?.xs_over(k.into());
    Some(weighed(p, xs, k))
}
