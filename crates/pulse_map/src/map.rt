// A map of repx X's and repn N's: its elements, and the X's among the first of them.
ghost use Rattle.std.specs.Prelude.{◌≡◌, true, false, ◌+◌, ◌≤◌, MatchOption};
ghost use Rattle.pulse_map.specs.Refusals.{no_map};
ghost use Rattle.pulse_map.specs.Answers.{element_answer, xs_answer};
ghost use Rattle.pulse_map.specs.Told.{element_told, count_told};

use super::Element;

// A map that is not refused, of so many X's and N's.
#[derive(Clone, Copy)]
pub(crate) struct Map {
    pub(crate) xs: u64,
    pub(crate) ns: u64,
    ghost some: { 1 ≤ xs + ns },
    ghost most: { xs + ns ≤ 100 },
}

impl Map {
    // The map of repx X's and repn N's; none is refusal 11.
    #[tactic(auto, unfolding(crate::specs::Refusals::no_map))]
    pub(crate) fn of(repx: u32, repn: u32) -> Option<Map>
        ensures { MatchOption result (no_map repx repn 0 ≡ true) (λ m. (no_map repx repn 0 ≡ false) × (m.xs ≡ repx) × (m.ns ≡ repn)) }
    {
        let (xs, ns) = (u64::from(repx), u64::from(repn));
        match xs + ns {
            1..=100 => Some(Map { xs, ns }),
            _ => None,
        }
    }

    // The number of its elements.
    pub(crate) fn len(self) -> u64
        ensures { result ≡ self.xs + self.ns }
    {
        self.xs + self.ns
    }
}

// Element i of the map, the first being element 0; none is refusal 11.
// Stays: repx and repn are numbers here and in `xs_in_prefix`, since the paper turns down a map, and an element past
// its end, in one call with one number; a `Map` that callers make would be refused in a call of its own.
#[tactic(auto, unfolding(crate::specs::Refusals::no_map))]
pub fn element_at(repx: u32, repn: u32, i: u32) -> Option<Element>
    ensures { element_told result ≡ element_answer repx repn i }
{
    let map = Map::of(repx, repn)?;
    let i = u64::from(i);
    if i >= map.len() {
        None
    } else if map.bit(i) == 1 {
        Some(Element::X)
    } else {
        Some(Element::N)
    }
}

// The number of X's among the first k elements of the map; none is refusal 11.
#[tactic(auto, unfolding(crate::specs::Refusals::no_map))]
pub fn xs_in_prefix(repx: u32, repn: u32, k: u32) -> Option<u64>
    ensures { count_told result ≡ xs_answer repx repn k }
{
    let map = Map::of(repx, repn)?;
    let k = u64::from(k);
    if k > map.len() {
        None
    } else {
        Some(map.xs_before(k))
    }
}
