// The table of refusals: its numbers, and what it makes of a descriptor.
ghost use Rattle.std.specs.Prelude.{◌≡◌, false};
ghost use Rattle.phase_lists.specs.Tables.{no_table};
ghost use Rattle.descriptor.specs.Refusals.{refusal_number, sound_burst};
ghost use Rattle.descriptor.specs.Rulings.{carried_ruling, tariff_ruling, burst_ruling, descriptor_ruling};
ghost use Rattle.descriptor.specs.declared.TariffPart.TheVariants.{Rate, Em as OfEm};

use super::{BurstPart, Parts, Refusal, Ruling, TariffPart};
use phase_lists::PhaseTable;
use rules::Carry;
use tariff::Em;

impl Refusal {
    // The paper's number.
    pub fn number(self) -> u32
        ensures { result ≡ refusal_number self }
    {
        match self {
            Refusal::Configuration => 1,
            Refusal::Period => 2,
            Refusal::NoEndlessEm => 3,
            Refusal::Interval => 4,
            Refusal::Lists => 5,
            Refusal::Phase => 6,
            Refusal::Burst => 7,
            Refusal::BurstRuns => 8,
            Refusal::Grammar => 12,
            Refusal::Content => 13,
            Refusal::Row => 14,
            Refusal::Place => 15,
            Refusal::Ticket => 16,
            Refusal::Serial => 17,
        }
    }
}

// Whether a burst's n and P are within their ends.
fn sound_burst(pulses: u32, interval: u32) -> bool
    ensures { result ≡ sound_burst pulses interval }
{
    (1..=65535).contains(&pulses) && (1..=60000).contains(&interval)
}

// A rate needs an em with C = 0, and its interval is held to the rule of an em.
#[tactic(auto, unfolding(crate::specs::Rulings::tariff_ruling))]
fn rate_ruling(spacing: u32, endless: bool, interval: u32) -> Ruling
    ensures { result ≡ tariff_ruling spacing endless (Rate interval) no_table }
{
    if !endless {
        return Err(Refusal::NoEndlessEm);
    }
    let alike = Em {
        count: 0,
        period: interval,
    };
    em_ruling(spacing, alike)
}

// An em is held to its own rule only.
#[tactic(auto, unfolding(crate::specs::Rulings::tariff_ruling))]
fn em_ruling(spacing: u32, em: Em) -> Ruling
    ensures { result ≡ tariff_ruling spacing false (OfEm em) no_table }
{
    if !rules::sound_em(spacing, em) {
        return Err(Refusal::Interval);
    }
    Ok(())
}

// The number of phases is judged before the phases.
fn phased_ruling(carry: Carry) -> Ruling
    ensures { result ≡ carried_ruling carry }
{
    if !(1..=8).contains(&carry.count) {
        return Err(Refusal::Lists);
    }
    if !carry.sound {
        return Err(Refusal::Phase);
    }
    Ok(())
}

// What the table makes of a tariff part, where `endless` says whether an em with C = 0 runs.
#[tactic(auto, unfolding(crate::specs::Rulings::tariff_ruling))]
fn tariff_ruling(spacing: u32, endless: bool, part: TariffPart, table: PhaseTable) -> Ruling
    ensures { result ≡ tariff_ruling spacing endless part table }
{
    match part {
        TariffPart::None | TariffPart::Keep => Ok(()),
        TariffPart::Rate { interval } => rate_ruling(spacing, endless, interval),
        TariffPart::Em(em) => em_ruling(spacing, em),
        TariffPart::Phased => phased_ruling(table.carry),
    }
}

// What the table makes of a burst part, where `running` says whether a burst runs.
#[tactic(auto, unfolding(crate::specs::Rulings::burst_ruling))]
fn burst_ruling(running: bool, part: BurstPart) -> Ruling
    ensures { result ≡ burst_ruling running part }
{
    match part {
        BurstPart::None | BurstPart::Keep => Ok(()),
        BurstPart::Start { pulses, interval } => {
            if !sound_burst(pulses, interval) {
                Err(Refusal::Burst)
            } else if running {
                Err(Refusal::BurstRuns)
            } else {
                Ok(())
            }
        }
    }
}

impl Parts {
    // What the table makes of a descriptor, on a line of this spacing. `endless` says whether an em with C = 0 runs,
    // and `running` whether a burst runs.
    pub fn ruling(self, spacing: u32, endless: bool, running: bool) -> Ruling
        ensures { result ≡ descriptor_ruling spacing endless running self.tariff self.table self.burst }
    {
        tariff_ruling(spacing, endless, self.tariff, self.table)?;
        burst_ruling(running, self.burst)
    }
}
