// Whether there is room before the next slot of a tariff.
ghost use Rattle.std.specs.Prelude.{◌≡◌};
ghost use Rattle.tariff.specs.Tariffs.{room_of};

use super::{Tariff, Timed};

impl Timed {
    // Whether the next slot is `spacing` ticks away or more, if one is left.
    pub fn has_room(self, spacing: u32) -> bool
        ensures { result ≡ room_of spacing self }
    {
        matches!(self.tariff, Tariff::Idle | Tariff::Ending) || u64::from(spacing) <= self.wait
    }
}
