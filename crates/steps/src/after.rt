// A tariff after a slot, with the ticks to what comes next.
ghost use Rattle.std.specs.Prelude.{◌≡◌, ◌-◌, ◌*◌, ◌<◌};
ghost use Rattle.steps.specs.Steps.{distance_after, after_counted, after_phase, after_interval, after_phased};

use super::intervals;
use tariff::{Em, Phase, Position, Schedule, Tariff, Timed};

// The ticks from slot k of an em with C > 0 to slot k + 1, each multiplied before it is divided, so that none drifts.
#[tactic(auto, unfolding(crate::specs::Steps::distance_after))]
fn distance_after(em: Em, k: u32) -> u64
    requires { 0 < em.count }
    ensures { result ≡ distance_after em.count em.period k }
{
    let c = u64::from(em.count);
    let product = u64::from(k) * u64::from(em.period);
    (product + u64::from(em.period)) / c - product / c
}

// After slot k of an em with C > 0: slot k + 1, or the end of the last pulse, which lasts `pulse` ticks.
#[tactic(auto, unfolding(crate::specs::Steps::after_counted))]
pub(crate) fn after_counted(pulse: u32, em: Em, k: u32) -> Timed
    ensures { result ≡ after_counted pulse em k }
{
    if u64::from(k) + 1 < u64::from(em.count) {
        Timed {
            tariff: Tariff::Counted { em, next: k + 1 },
            wait: distance_after(em, k),
        }
    } else {
        Timed {
            tariff: Tariff::Ending,
            wait: u64::from(pulse),
        }
    }
}

// The ticks that are left of so many seconds from an interval's start at slot j, where slots are `pri` apart.
fn ticks_left(seconds: u32, j: u32, pri: u32) -> u64
    ensures { result ≡ 1000 * seconds - j * pri }
{
    (1000 * u64::from(seconds)).saturating_sub(u64::from(j) * u64::from(pri))
}

// After the last interval of a phase, which ends in `wait` ticks: the next phase, if there is one.
#[tactic(auto, unfolding(crate::specs::Steps::after_phase))]
fn after_phase(schedule: Schedule, phase: u32, wait: u64) -> Timed
    ensures { result ≡ after_phase schedule phase wait }
{
    let tariff = if u64::from(phase) + 1 < u64::from(schedule.count) {
        let next = phase + 1;
        Tariff::Phased(Position::start(next, schedule.at(next)))
    } else {
        Tariff::Ending
    };
    Timed { tariff, wait }
}

// After the last slot of an interval of a phase, which is p: the next interval of the phase, if there is one.
#[tactic(auto, unfolding(crate::specs::Steps::after_interval))]
fn after_interval(schedule: Schedule, at: Position, p: Phase) -> Timed
    ensures { result ≡ after_interval schedule at p }
{
    // An endless phase goes on, and so does one with seconds left after this interval.
    if at.left == 0 || p.ci < at.left {
        let next = Position {
            entry: intervals::next_entry(p, at.entry),
            left: at.left.saturating_sub(p.ci),
            slot: 0,
            ..at
        };
        Timed {
            tariff: Tariff::Phased(next),
            wait: ticks_left(p.ci, at.slot, p.pri),
        }
    } else {
        after_phase(schedule, at.phase, ticks_left(at.left, at.slot, p.pri))
    }
}

// After a slot of an interval of m pulses of a phase, which is p: the next slot of the interval, if there is one.
#[tactic(auto, unfolding(crate::specs::Steps::after_phased))]
pub(crate) fn after_slot(schedule: Schedule, at: Position, p: Phase, m: u32) -> Timed
    ensures { result ≡ after_phased schedule at p m }
{
    if u64::from(at.slot) + 1 < u64::from(m) {
        let next = Position {
            slot: at.slot + 1,
            ..at
        };
        Timed {
            tariff: Tariff::Phased(next),
            wait: u64::from(p.pri),
        }
    } else {
        after_interval(schedule, at, p)
    }
}
