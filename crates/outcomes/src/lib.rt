// What a whole text amounts to: its parts, and the phases of its lists.
#![tactic(auto)]

ghost use Rattle.std.specs.Prelude.{◌≡◌};
ghost use Rattle.descriptor.specs.Rulings.{table_for};
ghost use Rattle.grammar.specs.Meaning.{has_lists, is_incomplete, tariff_by, burst_by};
ghost use Rattle.notes.specs.Noting.{has_in, values_at};
ghost use Rattle.outcomes.specs.Outcomes.{lists_of_reading, answer_of};

use descriptor::{BurstPart, Refusal, TariffPart};
use notes::Notes;
pub use notes::{Values, slots};
use phase_lists::{PhaseLists, PhaseTable};
use tariff::Em;

// The parts of a descriptor that was read, and what is kept of the values of each name, by its slot. The values of the
// seven phase lists are those of a phased tariff.
#[derive(Clone, Copy)]
pub struct Reading {
    pub tariff: TariffPart,
    pub burst: BurstPart,
    pub values: [Values; slots::COUNT],
}

// Whether the seven lists of phsm are given.
fn has_lists(notes: &Notes) -> bool
    ensures { result ≡ has_lists (has_in notes.now.values) }
{
    (slots::PRI..slots::UNKNOWN).all(|slot| notes.has(slot))
}

// Whether em stands beside phsm, em lacks its pri, or phsm one of its lists.
fn is_incomplete(notes: &Notes) -> bool
    ensures { result ≡ is_incomplete (has_in notes.now.values) }
{
    let em = notes.has(slots::EM);
    let phsm = notes.has(slots::PHSM);
    (em && phsm) || (em && !notes.has(slots::EM_PRI)) || (phsm && !has_lists(notes))
}

// The tariff part: em with KA is a rate, or keep where pc is above 0.
fn tariff(notes: &Notes) -> TariffPart
    ensures { result ≡ tariff_by (has_in notes.now.values) (values_at notes.now.values) }
{
    let period = notes.values[slots::EM_PRI].first_or(0);
    let count = notes.values[slots::EM_PC].first_or(0);
    if notes.has(slots::EM) {
        if !notes.has(slots::EM_KEEP) {
            return TariffPart::Em(Em { count, period });
        }
        if count > 0 {
            return TariffPart::Keep;
        }
        return TariffPart::Rate { interval: period };
    }
    if !notes.has(slots::PHSM) {
        return TariffPart::None;
    }
    if notes.has(slots::PHSM_KEEP) {
        return TariffPart::Keep;
    }
    TariffPart::Phased
}

// The burst part.
fn burst(notes: &Notes) -> BurstPart
    ensures { result ≡ burst_by (has_in notes.now.values) (values_at notes.now.values) }
{
    if !notes.has(slots::MPB) {
        return BurstPart::None;
    }
    if notes.has(slots::MPB_KEEP) {
        return BurstPart::Keep;
    }
    BurstPart::Start {
        pulses: notes.values[slots::MPB_BPC].first_or(1),
        interval: notes.values[slots::MPB_PRI].first_or(1),
    }
}

// What the bytes amount to, by whether they are a whole text, and by what was noted of it.
#[tactic(auto, unfolding(crate::specs::Outcomes::answer_of, crate::specs::Outcomes::outcome_of))]
pub fn answer(whole: bool, notes: Notes) -> Result<Reading, Refusal>
    ensures { result ≡ answer_of whole notes }
{
    if !whole {
        return Err(Refusal::Grammar);
    }
    if notes.bad || is_incomplete(&notes) {
        return Err(Refusal::Content);
    }
    Ok(Reading {
        tariff: tariff(&notes),
        burst: burst(&notes),
        values: notes.values,
    })
}

impl Reading {
    // The phases of a descriptor, read from what is kept of its lists and judged for a line of this spacing.
    pub fn phases(&self, spacing: u32) -> PhaseTable
        ensures { result ≡ table_for spacing self.now.tariff (lists_of_reading self.now) }
    {
        // Stays: seven lists by slot; phases lends seven by name, and an index in both would lose the names there.
        let lists = PhaseLists {
            pri: self.values[slots::PRI].as_slice(),
            pcx: self.values[slots::PCX].as_slice(),
            repx: self.values[slots::REPX].as_slice(),
            pcn: self.values[slots::PCN].as_slice(),
            repn: self.values[slots::REPN].as_slice(),
            ci: self.values[slots::CI].as_slice(),
            pd: self.values[slots::PD].as_slice(),
        };
        descriptor::phases_for(spacing, self.tariff, lists)
    }
}
