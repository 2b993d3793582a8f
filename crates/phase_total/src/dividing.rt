// A phase that can be divided into windows: its numbers are not refused by themselves.
ghost use Rattle.std.specs.Prelude.{◌≡◌, ◌<◌, ℕ, false, IfErr, IfOk};
ghost use Rattle.fractions.specs.Answers.{refused};
ghost use Rattle.pulse_map.specs.Refusals.{no_map};
ghost use Rattle.phase_total.specs.Windows.{whole, remaining, judged, windows, windows_answer};
ghost use Rattle.phase_total.specs.Told.{map_in, refusal_number};

use super::{Charging, Refusal};
use fractions::Parameters;

// What a phase is to charge, and the first window's map.
#[derive(Clone, Copy)]
pub(crate) struct Divided {
    pub(crate) charging: Charging,
    pub(crate) map: Parameters,
    ghost interval: { 0 < charging.ci },
    ghost fraction: { 0 < charging.b },
    ghost elements: { no_map map.repx map.repn 0 ≡ false },
}

impl Divided {
    // Divides a phase; none is refusal 18 or 9. Without a whole interval there is no first window, and one element
    // is as good as any.
    #[tactic(auto, using(crate::proofs::WindowLaws::same_windows, crate::proofs::WindowLaws::a_map), unfolding(crate::specs::Windows::windows_answer, fractions::specs::Answers::no_tariff))]
    pub(crate) fn of(charging: Charging) -> Result<Divided, Refusal>
        ensures refused { IfErr result (λ why. (S : ℕ) → windows_answer S charging ≡ refused (refusal_number why)) }
        ensures charging { IfOk result (λ d. d.charging ≡ charging) }
        ensures windows { IfOk result (λ d. (S : ℕ) → windows_answer S charging ≡ judged S (windows (map_in d.map) charging)) }
    {
        let Charging { a, b, ci, pd, .. } = charging;
        if ci == 0 || pd == 0 {
            return Err(Refusal::Seconds);
        }
        let elements = (pd / ci).clamp(1, 10);
        let map = fractions::parameters_of(a, b, elements).ok_or(Refusal::Tariff)?;
        Ok(Divided { charging, map })
    }

    // The whole intervals.
    pub(crate) fn whole(self) -> u32
        ensures { result ≡ whole self.charging }
    {
        self.charging.pd / self.charging.ci
    }

    // The remaining seconds.
    pub(crate) fn remaining(self) -> u32
        ensures { result ≡ remaining self.charging }
    {
        self.charging.pd % self.charging.ci
    }
}
