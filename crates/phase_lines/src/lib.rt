// A descriptor of a script that waits for its phase lines.
#![tactic(auto)]

ghost use Rattle.std.specs.Prelude.{◌≡◌};
ghost use Rattle.phase_lines.specs.Waiting.{waiting_for, waiting_with, meaning_of, meant_in};

use descriptor::{BurstPart, Descriptor, TariffPart};
use phases::Phases;
use tariff::Phase;

// How many phase lines are missing, the burst part, and the phases that were read, unless a line was bad.
#[derive(Clone, Copy)]
pub struct Waiting {
    pub missing: u32,
    pub burst: BurstPart,
    pub phases: Option<Phases>,
}

impl Waiting {
    // Before the first phase line.
    pub fn new(missing: u32, burst: BurstPart) -> Waiting
        ensures { result ≡ waiting_for missing burst }
    {
        Waiting {
            missing,
            burst,
            phases: Some(Phases::new()),
        }
    }

    // With one more phase line, which may be bad.
    pub fn with(self, phase: Option<Phase>) -> Waiting
        ensures { result ≡ waiting_with self phase }
    {
        let phases = match (self.phases, phase) {
            (Some(read), Some(p)) => Some(read.with(p)),
            _ => None,
        };
        Waiting {
            missing: self.missing.saturating_sub(1),
            phases,
            ..self
        }
    }

    // The descriptor with the phases that were read, unless a line was bad.
    pub fn descriptor(&self) -> Option<Descriptor<'_>>
        ensures { meant_in result ≡ meaning_of self.now }
    {
        let read = self.phases.as_ref()?;
        Some(read.descriptor(TariffPart::Phased, self.burst))
    }
}
