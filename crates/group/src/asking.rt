// What the lines of a group would answer.
ghost use Rattle.std.specs.Prelude.{◌≡◌};
ghost use Rattle.group.specs.Groups.{rate_of, verdict_of};

use descriptor::{BurstPart, Parts, Refusal, TariffPart};
use dispatcher::is_bad_row;
use line::{Line, Verdict};
use phase_lists::PhaseTable;

// What a line would answer to the rate command, burst keep. Only its spacing and its state are asked.
pub(crate) fn answer(line: &Line, interval: u32) -> Verdict
    ensures { result ≡ (rate_of line.now interval).verdict }
{
    let rate = Parts {
        tariff: TariffPart::Rate { interval },
        table: PhaseTable::empty(),
        burst: BurstPart::Keep,
    };
    let endless = line.state.timed.tariff.is_endless();
    let running = burst::is_running(line.state.burst);
    rate.ruling(line.spacing, endless, running).and(Ok(0))
}

// What the group is answered: a bad row comes before a place outside the row, and that before the first line that
// refuses.
pub(crate) fn asked(row: &[Line], places: &[u32], interval: u32) -> Verdict
    ensures { result ≡ verdict_of row.now places.now interval }
{
    if is_bad_row(row.len()) {
        return Err(Refusal::Row);
    }
    let mut verdict = Ok(0);
    for &place in places {
        let line = row.get(place as usize).ok_or(Refusal::Place)?;
        verdict = verdict.and(answer(line, interval));
    }
    verdict
}
