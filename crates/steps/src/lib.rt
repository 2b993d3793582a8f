// A tariff one tick on: what is due, and where the tariff stands after it.
#![tactic(auto)]

ghost use Rattle.std.specs.Prelude.{◌≡◌, if◌then◌else◌, ◌==◌, Some, false};
ghost use Rattle.steps.specs.Steps.{due_of, step_of, stepped};
ghost use Rattle.tariff.specs.declared.Slot.TheVariants.{Empty, Pulse};
ghost use Rattle.tariff.specs.declared.Tariff.TheVariants.{Phased};

mod after;
mod intervals;

use tariff::{Position, Schedule, Slot, Tariff, Timed};

// A tariff one tick on, the slot of that tick if it has one, and whether the tariff is complete at it.
#[derive(Clone, Copy, PartialEq, Eq, Debug)]
pub struct Stepped {
    pub timed: Timed,
    pub slot: Option<Slot>,
    pub complete: bool,
}

impl Stepped {
    // With a slot.
    fn with_slot(timed: Timed, slot: Slot) -> Stepped
        ensures { result ≡ stepped timed (Some slot) false }
    {
        Stepped {
            timed,
            slot: Some(slot),
            complete: false,
        }
    }
}

// The slot of an interval of m pulses.
fn slot_of(m: u32) -> Slot
    ensures { result ≡ (if m == 0 then Empty else Pulse) }
{
    if m == 0 { Slot::Empty } else { Slot::Pulse }
}

// What is due of a phased tariff. The length of a pulse, 0 here, makes no difference to it.
#[tactic(auto, unfolding(crate::specs::Steps::due_of))]
fn due_phased(at: Position, schedule: Schedule) -> Stepped
    ensures { result ≡ due_of 0 schedule (Phased at) }
{
    let p = schedule.at(at.phase);
    let m = intervals::pulses_at(p, at.entry);
    Stepped::with_slot(after::after_slot(schedule, at, p, m), slot_of(m))
}

// What is due when the wait is over, on a line with these phases, whose pulses last `pulse` ticks.
#[tactic(auto, unfolding(crate::specs::Steps::due_of))]
fn due(tariff: Tariff, pulse: u32, schedule: Schedule) -> Stepped
    ensures { result ≡ due_of pulse schedule tariff }
{
    match tariff {
        Tariff::Endless { interval } => {
            let wait = u64::from(interval);
            Stepped::with_slot(Timed { tariff, wait }, Slot::Pulse)
        }
        Tariff::Counted { em, next } => {
            Stepped::with_slot(after::after_counted(pulse, em, next), Slot::Pulse)
        }
        Tariff::Phased(at) => due_phased(at, schedule),
        Tariff::Idle | Tariff::Ending => Stepped {
            timed: Timed::default(),
            slot: None,
            complete: tariff == Tariff::Ending,
        },
    }
}

// One tick of a tariff: one less to wait, or what is due.
#[tactic(auto, unfolding(crate::specs::Steps::step_of))]
pub fn step(timed: Timed, pulse: u32, schedule: Schedule) -> Stepped
    ensures { result ≡ step_of pulse schedule timed }
{
    if 1 < timed.wait {
        Stepped {
            timed: Timed {
                wait: timed.wait - 1,
                ..timed
            },
            slot: None,
            complete: false,
        }
    } else {
        due(timed.tariff, pulse, schedule)
    }
}
