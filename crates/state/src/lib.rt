// The state of a line, all that a tick changes: its record, its counters, and a tick at which nothing happens.
#![tactic(auto)]

mod counting;
mod parts;
mod pulses;
mod quiet;

use answers::Tick;
use burst::Burst;
use tariff::Timed;

// The pulses applied, the pulses since the last report, and the report period, if one is set.
#[derive(Clone, Copy, PartialEq, Eq, Debug, Default)]
pub struct Counters {
    pub cpc: u32,
    pub pcslr: u32,
    pub rp: Option<u32>,
}

// The counters after a front, and whether it gives a report.
#[derive(Clone, Copy, PartialEq, Eq, Debug)]
pub struct Count {
    pub counters: Counters,
    pub report: bool,
}

// All that a tick changes: the tariff, the clock, the ticks since the last front, held at the spacing, the burst, if
// one runs, and the counters.
#[derive(Clone, Copy, PartialEq, Eq, Debug)]
pub struct State {
    pub timed: Timed,
    pub clock: u32,
    pub since: u32,
    pub burst: Option<Burst>,
    pub counters: Counters,
}

// The state after a tick, what the tick tells, and whether anything happened at it: a slot, an empty one too, a front,
// a completion, or the end of a pulse.
#[derive(Clone, Copy, PartialEq, Eq, Debug)]
pub struct Moved {
    pub state: State,
    pub tick: Tick,
    pub event: bool,
}
