// Where a phased tariff stands as a phase begins.
ghost use Rattle.std.specs.Prelude.{◌≡◌};
ghost use Rattle.tariff.specs.Tariffs.{phase_start};

use super::{Phase, Position};

impl Position {
    // Where a phase begins, which is p.
    pub fn start(phase: u32, p: Phase) -> Position
        ensures { result ≡ phase_start phase p }
    {
        Position {
            phase,
            entry: 0,
            left: p.pd,
            slot: 0,
        }
    }
}
