// What a tick on a line answers.
#![tactic(auto)]

// The pulse that begins at a tick.
#[derive(Clone, Copy, PartialEq, Eq, Debug)]
pub enum Front {
    Tariff,
    Burst,
}

// A tick's answer: whether the tariff and the burst are complete, the front, and whether a report is given.
#[derive(Clone, Copy, PartialEq, Eq, Debug, Default)]
pub struct Tick {
    pub tariff: bool,
    pub burst: bool,
    pub front: Option<Front>,
    pub report: bool,
}
