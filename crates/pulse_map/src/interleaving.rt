// The interleaving of X's and N's, worked out for any length without building the map.
ghost use Rattle.std.specs.Prelude.{◌≡◌, ◌+◌, ◌≤◌, take};
ghost use Rattle.pulse_map.specs.Map.{map_of, xs_in};

use super::map::Map;

impl Map {
    // The X's among the first k elements. Of groups of g X's and one N, each whole group has an N, as far as there are
    // N's, and the others are X's. Of groups of one X and g N's, each group begun has an X, as far as there are X's.
    #[tactic(auto, using(crate::proofs::Prefix::prefix_x, crate::proofs::Prefix::prefix_n))]
    pub(crate) fn interleaved(self, k: u64) -> u64
        requires { k ≤ self.xs + self.ns }
        ensures { result ≡ xs_in (take k (map_of self.xs self.ns)) }
    {
        let Map { xs, ns } = self;
        if ns == 0 {
            k
        } else if xs == 0 {
            0
        } else if ns <= xs {
            let g = (2 * xs + ns) / (2 * ns);
            (k - (k / (g + 1)).min(ns)).min(xs)
        } else {
            let g = ns / xs;
            ((k + g) / (g + 1)).min(xs)
        }
    }
}
