// The windows of a phase, and what is answered.
ghost use Rattle.std.specs.Prelude.{◌≡◌, ◌<◌, MatchOption};
ghost use Rattle.rules.specs.Rules.{sound_phases};
ghost use Rattle.phase_total.specs.Windows.{remaining, first_window, second_count, second_window, windows, windows_answer, phases_answer};
ghost use Rattle.phase_total.specs.Told.{map_in, windows_told, phases_told};

use super::dividing::Divided;
use super::{Charging, Refusal, Windows};
use arrayvec::ArrayVec;
use phases::Phases;
use rules::Carry;
use tariff::Phase;

// Whether a list of phases keeps the rules on a line of this spacing.
#[tactic(auto, using(crate::proofs::Sound::carried_next), unfolding(rules::specs::Carried::carried))]
fn are_sound(phases: &[Phase], spacing: u32) -> bool
    ensures { result ≡ sound_phases spacing phases.now }
{
    let mut carry = Carry::start();
    for p in phases {
        carry = carry.meet(spacing, *p);
    }
    carry.sound
}

impl Divided {
    // The window of the whole intervals.
    fn first_window(self) -> Phase
        ensures { result ≡ first_window (map_in self.map) self.charging }
    {
        Phase {
            pri: self.charging.pri,
            pcx: self.map.pcx,
            repx: self.map.repx,
            pcn: self.map.pcn,
            repn: self.map.repn,
            ci: self.charging.ci,
            pd: self.whole() * self.charging.ci,
        }
    }

    // The window of the remaining seconds. Where there is none, its count is above 65,535.
    fn second_window(self) -> Option<Phase>
        ensures { MatchOption result (65535 < second_count (map_in self.map) self.charging)
            (λ p. p ≡ second_window (map_in self.map) self.charging) }
    {
        let count = u32::try_from(self.second_count()).ok()?;
        let seconds = self.remaining();
        Some(Phase {
            pri: self.charging.pri,
            pcx: count,
            repx: 1,
            pcn: count,
            repn: 0,
            ci: seconds,
            pd: seconds,
        })
    }

    // The windows. Where there are none, seconds remain, and their count is above 65,535.
    #[tactic(auto, unfolding(crate::specs::Windows::windows))]
    fn windows(self) -> Option<Windows>
        ensures { MatchOption result
            ((0 < remaining self.charging) × (65535 < second_count (map_in self.map) self.charging))
            (λ ws. ws.items ≡ windows (map_in self.map) self.charging) }
    {
        let mut windows = ArrayVec::new();
        if self.whole() > 0 {
            windows.push(self.first_window());
        }
        if self.remaining() > 0 {
            windows.push(self.second_window()?);
        }
        Some(windows)
    }
}

impl Charging {
    // The phases that charge by the count of the phase, for a line of this spacing. The intervals are not walked, and 64
    // bits hold all numbers.
    #[tactic(auto, using(crate::proofs::WindowLaws::crowded))]
    pub fn windows(self, spacing: u32) -> Result<Windows, Refusal>
        ensures { windows_told result ≡ windows_answer spacing self }
    {
        let divided = Divided::of(self)?;
        let windows = divided.windows().ok_or(Refusal::Phase)?;
        if !are_sound(windows.as_slice(), spacing) {
            return Err(Refusal::Phase);
        }
        Ok(windows)
    }

    // The same in the form that a descriptor lends.
    pub fn phases(self, spacing: u32) -> Result<Phases, Refusal>
        ensures { phases_told result ≡ phases_answer spacing self }
    {
        let windows = self.windows(spacing)?;
        Ok(Phases::of(windows.as_slice()))
    }
}
