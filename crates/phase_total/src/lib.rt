// Charging by the count of a phase: one or two phases, of which the second sends what the first leaves of the exact total.
#![tactic(auto)]

ghost use Rattle.std.specs.Prelude.{◌≡◌};
ghost use Rattle.phase_total.specs.Told.{refusal_number};

mod counting;
mod dividing;
mod windows;

use arrayvec::ArrayVec;
use tariff::Phase;

// What a phase is to charge: a/b pulses in each interval of ci seconds, over its pd seconds, with slots pri apart.
#[derive(Clone, Copy, PartialEq, Eq, Debug)]
pub struct Charging {
    pub a: u32,
    pub b: u32,
    pub ci: u32,
    pub pd: u32,
    pub pri: u32,
}

// The windows that a phase is written in: the whole intervals, and the remaining seconds.
pub type Windows = ArrayVec<Phase, 2>;

// Why no phase is written: ci or pd is 0, b is 0 or pcx over 65,535, or a phase that would be written breaks a rule.
#[derive(Clone, Copy, PartialEq, Eq, Debug)]
pub enum Refusal {
    Seconds,
    Tariff,
    Phase,
}

impl Refusal {
    // The paper's number.
    pub fn number(self) -> u32
        ensures { result ≡ refusal_number self }
    {
        match self {
            Refusal::Seconds => 18,
            Refusal::Tariff => 9,
            Refusal::Phase => 6,
        }
    }
}
