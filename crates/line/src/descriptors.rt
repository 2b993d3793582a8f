// Descriptors: what the table of refusals makes of one, and the line and the answer after it.
ghost use Rattle.std.specs.Prelude.{◌≡◌};
ghost use Rattle.tariff.specs.Tariffs.{is_endless};
ghost use Rattle.phase_lists.specs.Lists.{lists_in};
ghost use Rattle.phase_lists.specs.Tables.{schedule_in};
ghost use Rattle.descriptor.specs.Rulings.{descriptor_ruling};
ghost use Rattle.burst.specs.Bursts.{is_running};
ghost use Rattle.line.specs.Lines.{fresh_of, with_em, with_schedule, tariff_changed, burst_changed, described_by, describe_of, describe_text_of, read_answer, meant_by};

use super::{Answered, Line};
use burst::Burst;
use descriptor::{BurstPart, Descriptor, Parts, Ruling, TariffPart};
use phase_lists::{PhaseLists, PhaseTable};
use state::Counters;
use tariff::{Em, Schedule, Tariff, Timed};

impl Line {
    // A fresh tariff, before its origin.
    fn fresh(self, tariff: Tariff) -> Timed
        ensures { result ≡ fresh_of self tariff }
    {
        Timed {
            tariff,
            wait: self.state.origin_wait(self.spacing),
        }
    }

    // The line with a fresh em, which zeroes the counters.
    fn with_em(self, em: Em) -> Line
        ensures { result ≡ with_em self em }
    {
        let zero = Counters {
            cpc: 0,
            pcslr: 0,
            ..self.state.counters
        };
        let fresh = self.fresh(Tariff::em(em));
        self.with_state(self.state.with_tariff(fresh, zero))
    }

    // The line with a fresh phased tariff of these phases.
    fn with_schedule(self, schedule: Schedule) -> Line
        ensures { result ≡ with_schedule self schedule }
    {
        let fresh = self.fresh(Tariff::phased(schedule.phases));
        Line {
            state: self.state.with_tariff(fresh, self.state.counters),
            schedule,
            ..self
        }
    }

    // The line with a tariff part taken, whose phases, if it is phased, are in the table.
    #[tactic(auto, unfolding(crate::specs::Lines::tariff_changed))]
    fn with_tariff_part(self, part: TariffPart, table: PhaseTable) -> Line
        ensures { result ≡ tariff_changed part (schedule_in table) self }
    {
        match part {
            TariffPart::None => self.with_state(self.state.stopped()),
            TariffPart::Keep => self,
            TariffPart::Rate { interval } => self.with_state(self.state.rated(interval)),
            TariffPart::Em(em) => self.with_em(em),
            TariffPart::Phased => self.with_schedule(table.into()),
        }
    }

    // The line with a burst part taken. A burst starts with its distance passed.
    #[tactic(auto, unfolding(crate::specs::Lines::burst_changed))]
    fn with_burst_part(self, part: BurstPart) -> Line
        ensures { result ≡ burst_changed part self }
    {
        match part {
            BurstPart::None => self.with_state(self.state.with_burst(None)),
            BurstPart::Keep => self,
            BurstPart::Start { pulses, interval } => {
                let distance = interval.max(self.spacing);
                let started = Some(Burst::start(pulses, distance));
                self.with_state(self.state.with_burst(started))
            }
        }
    }

    // What the table of refusals makes of a descriptor.
    fn ruling(self, given: Parts) -> Ruling
        ensures { result ≡ descriptor_ruling self.spacing (is_endless self.state.timed.tariff) (is_running self.state.burst) given.tariff given.table given.burst }
    {
        let endless = self.state.timed.tariff.is_endless();
        let running = burst::is_running(self.state.burst);
        given.ruling(self.spacing, endless, running)
    }

    // A descriptor by its parts, with the table of its phases.
    fn described(self, given: Parts) -> Answered
        ensures { result ≡ described_by self given }
    {
        match self.ruling(given) {
            Err(refusal) => self.refusing(refusal),
            Ok(()) => {
                let owed = burst::owed(self.state.burst);
                let cancelled = descriptor::cancelled_by(given.burst, owed);
                self.with_tariff_part(given.tariff, given.table)
                    .with_burst_part(given.burst)
                    .accepting(cancelled)
            }
        }
    }

    // A descriptor by its parts. The lists are looked at only where the tariff part is phased.
    fn described_by_parts(self, tariff: TariffPart, lists: PhaseLists, burst: BurstPart) -> Answered
        ensures { result ≡ describe_of self tariff (lists_in lists.entry) burst }
    {
        let table = descriptor::phases_for(self.spacing, tariff, lists);
        self.described(Parts {
            tariff,
            table,
            burst,
        })
    }

    // A descriptor as a text. It is refused where it does not read, and then where it makes no sense; else it is the
    // descriptor that it reads as.
    fn described_by_text(self, text: &[u8]) -> Answered
        ensures { result ≡ describe_text_of self text.now }
    {
        match sg::read(text) {
            Err(why) => self.refusing(why),
            Ok(reading) => {
                let table = reading.phases(self.spacing);
                self.described(Parts {
                    tariff: reading.tariff,
                    table,
                    burst: reading.burst,
                })
            }
        }
    }

    // A descriptor, by its parts or as a text.
    #[tactic(auto, unfolding(crate::specs::Lines::describe_text_of))]
    pub fn describe(self, given: Descriptor) -> Answered
        ensures { result ≡ read_answer self (meant_by given.entry) }
    {
        match given {
            Descriptor::Parts {
                tariff,
                lists,
                burst,
            } => self.described_by_parts(tariff, lists, burst),
            Descriptor::Text(text) => self.described_by_text(text),
        }
    }
}
