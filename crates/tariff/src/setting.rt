// What the tariff part of a descriptor sets: a fresh em, a fresh phased tariff, or a rate.
ghost use Rattle.std.specs.Prelude.{◌≡◌};
ghost use Rattle.tariff.specs.Tariffs.{em_of, phased_of, rate_of, is_idle, is_endless};

use super::{Em, Phase, Position, Tariff};

impl Tariff {
    // A fresh em.
    #[tactic(auto, unfolding(crate::specs::Tariffs::em_of))]
    pub fn em(em: Em) -> Tariff
        ensures { result ≡ em_of em.count em.period }
    {
        if em.count == 0 {
            Tariff::Endless {
                interval: em.period,
            }
        } else {
            Tariff::Counted { em, next: 0 }
        }
    }

    // A fresh phased tariff.
    #[tactic(auto, unfolding(crate::specs::Tariffs::phased_of))]
    pub fn phased(phases: [Phase; 8]) -> Tariff
        ensures { result ≡ phased_of phases }
    {
        Tariff::Phased(Position::start(0, phases[0]))
    }

    // A rate: the next slot stays, and the later ones follow it `interval` apart.
    #[tactic(auto, unfolding(crate::specs::Tariffs::rate_of))]
    pub fn rate(self, interval: u32) -> Tariff
        ensures { result ≡ rate_of interval self }
    {
        if self.is_endless() {
            Tariff::Endless { interval }
        } else {
            self
        }
    }

    // Whether no tariff runs.
    pub fn is_idle(self) -> bool
        ensures { result ≡ is_idle self }
    {
        matches!(self, Tariff::Idle)
    }

    // Whether an em with C = 0 runs.
    pub fn is_endless(self) -> bool
        ensures { result ≡ is_endless self }
    {
        matches!(self, Tariff::Endless { .. })
    }
}
