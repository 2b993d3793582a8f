// The phases of a list, met one by one in list order.
ghost use Rattle.std.specs.Prelude.{◌≡◌};
ghost use Rattle.rules.specs.Carried.{none_met, met_by};

use super::Carry;
use tariff::Phase;

impl Carry {
    // Before the first phase.
    pub fn start() -> Carry
        ensures { result ≡ none_met }
    {
        Carry {
            count: 0,
            sound: true,
            endless: false,
        }
    }

    // One phase more, on a line of this spacing.
    pub fn meet(self, spacing: u32, p: Phase) -> Carry
        ensures { result ≡ met_by spacing self p }
    {
        let may_follow = self.sound && !self.endless;
        Carry {
            count: self.count.saturating_add(1).min(9),
            sound: may_follow && super::is_sound(p, spacing),
            endless: p.pd == 0,
        }
    }
}
