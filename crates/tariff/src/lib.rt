// The tariffs of a line: the phases of a phased tariff, and where a running tariff stands.
#![tactic(auto)]

mod phases;
mod positions;
mod room;
mod setting;

// A phase of a phased tariff, as a descriptor gives it.
#[derive(Clone, Copy, PartialEq, Eq, Debug, Default)]
pub struct Phase {
    pub pri: u32,
    pub pcx: u32,
    pub repx: u32,
    pub pcn: u32,
    pub repn: u32,
    pub ci: u32,
    pub pd: u32,
}

// The phases of a phased tariff: so many, at the front of an array of eight.
// Stays: an ArrayVec is no Copy, and calls take a line and its phases by value.
#[derive(Clone, Copy, PartialEq, Eq, Debug, Default)]
pub struct Schedule {
    pub count: u32,
    pub phases: [Phase; 8],
}

// A slot of a tariff at a tick.
#[derive(Clone, Copy, PartialEq, Eq, Debug)]
pub enum Slot {
    Empty,
    Pulse,
}

// An em: its count C and its period P.
#[derive(Clone, Copy, PartialEq, Eq, Debug)]
pub struct Em {
    pub count: u32,
    pub period: u32,
}

// Where a phased tariff stands: before a slot of a charge interval, by its phase, its map entry, the seconds of the
// phase from the interval's start on, and the slot. An entry counts up to repx + repn, which 32 bits may not hold.
// Stays: `left` begins as pd, which the paper has 0 in an endless phase: an Option would be made of that 0 where a
// phase begins, and asked in one test where an interval ends.
#[derive(Clone, Copy, PartialEq, Eq, Debug)]
pub struct Position {
    pub phase: u32,
    pub entry: u64,
    pub left: u32,
    pub slot: u32,
}

// Where a tariff stands.
#[derive(Clone, Copy, PartialEq, Eq, Debug, Default)]
pub enum Tariff {
    #[default]
    Idle,
    // An em with C = 0.
    Endless { interval: u32 },
    // An em with C > 0, before slot `next`.
    Counted { em: Em, next: u32 },
    Phased(Position),
    // No slot is left.
    Ending,
}

// A tariff, and the ticks to its next slot, or to its completion where it is ending.
#[derive(Clone, Copy, PartialEq, Eq, Debug, Default)]
pub struct Timed {
    pub tariff: Tariff,
    pub wait: u64,
}
