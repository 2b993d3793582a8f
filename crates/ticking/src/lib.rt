// One tick of a line: what is over ends, what is due begins and is counted.
#![tactic(auto)]

ghost use Rattle.std.specs.Prelude.{◌≡◌};
ghost use Rattle.ticking.specs.Rules.{front_at};
ghost use Rattle.ticking.specs.Moves.{since_front, burst_after, happens, moved_by};

use answers::{Front, Tick};
use burst::Burst;
use state::{Moved, State};
use tariff::{Schedule, Slot};

// A slot due now begins its pulse, or nothing if it is empty; where none is due, a burst pulse may begin.
fn front_at(slot: Option<Slot>, burst: bool) -> Option<Front>
    ensures { result ≡ front_at slot burst }
{
    match slot {
        None => burst.then_some(Front::Burst),
        Some(Slot::Empty) => None,
        Some(Slot::Pulse) => Some(Front::Tariff),
    }
}

// The ticks since the last front, which may be at this tick.
#[tactic(auto, unfolding(crate::specs::Moves::since_front))]
fn since_front(front: Option<Front>, since: u32) -> u32
    ensures { result ≡ since_front front since }
{
    if front.is_some() { 0 } else { since }
}

// The burst after this front or none.
#[tactic(auto, unfolding(crate::specs::Moves::burst_after))]
fn burst_after(front: Option<Front>, burst: Option<Burst>) -> Option<Burst>
    ensures { result ≡ burst_after front burst }
{
    if front == Some(Front::Burst) {
        burst.map(Burst::begun)
    } else {
        burst
    }
}

// Whether anything happened.
#[tactic(auto, unfolding(crate::specs::Moves::happens))]
fn has_event(slot: Option<Slot>, front: Option<Front>, complete: bool, ended: bool) -> bool
    ensures { result ≡ happens slot front complete ended }
{
    slot.is_some() || front.is_some() || complete || ended
}

// One tick, on a line of this pulse length and spacing and with these phases: the clock goes up, what is over ends, a
// slot due now, or else a burst pulse, begins, and is counted.
#[tactic(auto, unfolding(crate::specs::Moves::moved_by))]
pub fn moved(pulse: u32, spacing: u32, schedule: Schedule, state: State) -> Moved
    ensures { result ≡ moved_by pulse spacing schedule state }
{
    let since = burst::held_more(spacing, state.since);
    let t = steps::step(state.timed, pulse, schedule);
    let b = burst::age(state.burst, pulse);
    let may = burst::any_due(b.burst) && spacing <= since && t.timed.has_room(spacing);
    let front = front_at(t.slot, may);
    let n = state.counters.counted_by(front);
    Moved {
        state: State {
            timed: t.timed,
            clock: state.clock.wrapping_add(1),
            since: since_front(front, since),
            burst: burst_after(front, b.burst),
            counters: n.counters,
        },
        tick: Tick {
            tariff: t.complete,
            burst: b.complete,
            front,
            report: n.report,
        },
        event: has_event(t.slot, front, t.complete, state.ends(pulse, since)),
    }
}
