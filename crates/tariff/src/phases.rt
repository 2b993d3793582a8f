// A phase of a schedule.
ghost use Rattle.std.specs.Prelude.{◌≡◌};
ghost use Rattle.tariff.specs.Tariffs.{phase_at};

use super::{Phase, Schedule};

impl Schedule {
    // The phase at a place of the array; past its end a phase of no use.
    pub fn at(self, i: u32) -> Phase
        ensures { result ≡ phase_at self.phases i }
    {
        self.phases.get(i as usize).copied().unwrap_or_default()
    }
}
