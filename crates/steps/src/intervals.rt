// The map entries of the charge intervals of a phase.
ghost use Rattle.std.specs.Prelude.{◌≡◌};
ghost use Rattle.steps.specs.Steps.{pulses_at, next_entry};

use pulse_map::Element;
use tariff::Phase;

// The pulses of a charge interval by its map entry; none where the map has no such entry.
#[tactic(auto, unfolding(crate::specs::Steps::pulses_at))]
pub(crate) fn pulses_at(p: Phase, entry: u64) -> u32
    ensures { result ≡ pulses_at p entry }
{
    // No map has more than a hundred entries.
    let Ok(entry) = u32::try_from(entry) else {
        return 0;
    };
    match pulse_map::element_at(p.repx, p.repn, entry) {
        Some(Element::X) => p.pcx,
        Some(Element::N) => p.pcn,
        None => 0,
    }
}

// The map entry of the next charge interval: the map repeats.
// Stays: the next below an end, as `place_after` of the dispatcher has it on usize, where a call of this would need
// three casts.
#[tactic(auto, unfolding(crate::specs::Steps::next_entry))]
pub(crate) fn next_entry(p: Phase, entry: u64) -> u64
    ensures { result ≡ next_entry p entry }
{
    let next = entry.saturating_add(1);
    if next < u64::from(p.repx) + u64::from(p.repn) {
        next
    } else {
        0
    }
}
