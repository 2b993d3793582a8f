// The line of a metering gateway: its record, its calls and their answers.
#![tactic(auto)]

ghost use Rattle.std.specs.Prelude.{◌≡◌};
ghost use Rattle.line.specs.Lines.{with_state, accepting, refusing};

mod descriptors;
mod hooks;
mod making;
mod reports;
mod tickets;
mod ticks;

use answers::Tick;
use descriptor::Refusal;
pub use making::making_verdict;
use state::State;
use tariff::Schedule;

// A line: pulse length and spacing, its state, and the phases of a phased tariff. The serial is the number of accepted
// commands, held at 4,294,967,295.
// Stays: the pulse length beside the spacing. A tick, the test for a quiet one and `idle` take both; what they call,
// and the rest of the line, takes one of them (bursts, steps and `is_on` the length, rooms, rules and origins the
// spacing).
#[derive(Clone, Copy)]
pub struct Line {
    pub pulse: u32,
    pub spacing: u32,
    pub serial: u32,
    pub state: State,
    pub schedule: Schedule,
}

// A call's answer: the burst pulses cancelled, or why it was turned down.
pub type Verdict = Result<u32, Refusal>;

#[derive(Clone, Copy)]
pub struct Answered {
    pub line: Line,
    pub verdict: Verdict,
}

// What asking tells: what a descriptor would be answered, and the ticket to commit it with.
#[derive(Clone, Copy)]
pub struct Asked {
    pub line: Line,
    pub verdict: Verdict,
    pub ticket: u32,
}

#[derive(Clone, Copy)]
pub struct Audited {
    pub line: Line,
    pub cpc: u32,
    pub pcslr: u32,
}

#[derive(Clone, Copy)]
pub struct Ticked {
    pub line: Line,
    pub tick: Tick,
}

impl Line {
    pub(crate) fn with_state(self, state: State) -> Line
        ensures { result ≡ with_state self state }
    {
        Line { state, ..self }
    }

    // The answer of an accepted command that leaves this line, with the burst pulses cancelled: it adds 1 to the
    // serial.
    pub(crate) fn accepting(self, cancelled: u32) -> Answered
        ensures { result ≡ accepting self cancelled }
    {
        Answered {
            line: Line {
                serial: self.serial.saturating_add(1),
                ..self
            },
            verdict: Ok(cancelled),
        }
    }

    // The answer of a refused command, which leaves the line as it was.
    pub(crate) fn refusing(self, why: Refusal) -> Answered
        ensures { result ≡ refusing self why }
    {
        Answered {
            line: self,
            verdict: Err(why),
        }
    }
}
