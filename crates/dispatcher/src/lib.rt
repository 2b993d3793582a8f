// The dispatcher of a card: it ticks a row of lines that its caller lends, and sends one notice a tick.
#![tactic(auto)]

use descriptor::Refusal;

mod gathering;
mod serving;
mod ticks;
mod turns;

pub use serving::is_bad_row;

// What waits to be told of a line: the two completion marks, and the number of reports.
#[derive(Clone, Copy, Default)]
pub struct Waiting {
    pub tariff: bool,
    pub burst: bool,
    pub reports: u32,
}

// The length of the row at the first tick that was taken, if there was one; the place after the last served; and what
// waits of each place.
// Stays: the 64 places are an array. All of them are there from the start, and an ArrayVec is no Copy, which a
// dispatcher is that ticks hand back.
#[derive(Clone, Copy)]
pub struct Dispatcher {
    pub length: Option<usize>,
    pub next: usize,
    pub waiting: [Waiting; 64],
}

// The notice of the line at a place.
#[derive(Clone, Copy)]
pub struct Notice {
    pub place: usize,
    pub told: Waiting,
}

// What a tick is answered: the notice that goes over the link, if there is one, or why the row is refused.
pub type Reply = Result<Option<Notice>, Refusal>;

// The dispatcher after a tick, and what the tick is answered.
#[derive(Clone, Copy)]
pub struct Dispatched {
    pub dispatcher: Dispatcher,
    pub reply: Reply,
}
