// The rules that an em, a rate and a phase keep on a line, and a list of phases in one pass.
#![tactic(auto)]

ghost use Rattle.std.specs.Prelude.{◌≡◌};
ghost use Rattle.rules.specs.Rules.{sound_em, sound_numbers, fits_in, sound_phase};

mod carrying;

use tariff::{Em, Phase};

// What a list of phases leaves to carry to the next phase.
#[derive(Clone, Copy, PartialEq, Eq, Debug)]
pub struct Carry {
    // How many phases there were, held at 9: a list has at most 8.
    pub count: u32,
    // Every phase so far is sound, and none before the last is endless.
    pub sound: bool,
    // The last phase so far is endless.
    pub endless: bool,
}

// Whether an em keeps its rule; a rate is alike, with count 0.
#[tactic(auto, unfolding(crate::specs::Rules::distance_of, crate::specs::Rules::sound_em))]
pub fn sound_em(spacing: u32, em: Em) -> bool
    ensures { result ≡ sound_em spacing em.count em.period }
{
    let Em { count, period } = em;
    let distance = if count == 0 { period } else { period / count };
    count <= 65_535 && period <= 86_400_000 && 2 * u64::from(spacing) <= u64::from(distance)
}

// Whether the numbers of a phase are within their ends.
fn sound_numbers(p: Phase, spacing: u32) -> bool
    ensures { result ≡ sound_numbers spacing p }
{
    let entries = u64::from(p.repx) + u64::from(p.repn);
    2 * u64::from(spacing) <= u64::from(p.pri)
        && p.pri <= 86_400_000
        && p.pcn <= p.pcx
        && p.pcx <= 65_535
        && (1..=100).contains(&entries)
        && (1..=86_400).contains(&p.ci)
        && p.pd <= 86_400_000
}

// Whether so many seconds have room for the slots of an interval of pcx pulses, or for its empty slot.
fn fits_in(p: Phase, seconds: u32) -> bool
    ensures { result ≡ fits_in p seconds }
{
    u64::from(p.pcx.max(1)) * u64::from(p.pri) <= 1000 * u64::from(seconds)
}

// Whether a phase by itself keeps its rules.
#[tactic(auto, unfolding(crate::specs::Rules::sound_phase))]
pub(crate) fn is_sound(p: Phase, spacing: u32) -> bool
    ensures { result ≡ sound_phase spacing p }
{
    sound_numbers(p, spacing) && fits_in(p, p.ci) && (p.pd % p.ci == 0 || fits_in(p, p.pd % p.ci))
}
