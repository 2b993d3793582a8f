// A descriptor and an on-hook event: what they carry, the table of phases, and what the table of refusals makes of
// them.
#![tactic(auto)]

mod cancelling;
mod configuring;
mod refusals;
mod tables;
mod tickets;

pub use cancelling::cancelled_by;
use phase_lists::{PhaseLists, PhaseTable};
pub use tables::phases_for;
use tariff::Em;
pub use tickets::ticket_ruling;

// The tariff part of a descriptor. The phases of a phased tariff stand beside it.
// Stays: none and keep are words of the paper like the others, and an Option would set one of them apart. The phases
// are in another form at each step (lists lent, values of a text, a table, a number of lines): within, the enum would
// be generic over them, and with it each function that asks for no phases.
#[derive(Clone, Copy, PartialEq, Eq, Debug)]
pub enum TariffPart {
    None,
    Keep,
    Rate { interval: u32 },
    Em(Em),
    Phased,
}

// The burst part of a descriptor.
// Stays: none and keep, as in a tariff part.
#[derive(Clone, Copy, PartialEq, Eq, Debug)]
pub enum BurstPart {
    None,
    Keep,
    Start { pulses: u32, interval: u32 },
}

// A descriptor as a controller gives it: by its parts, with the lists of a phased tariff, or as a text.
#[derive(Clone, Copy)]
pub enum Descriptor<'a> {
    Parts {
        tariff: TariffPart,
        lists: PhaseLists<'a>,
        burst: BurstPart,
    },
    Text(&'a [u8]),
}

// A descriptor's two parts, with the table of the phases of a phased tariff between them.
#[derive(Clone, Copy, PartialEq, Eq, Debug)]
pub struct Parts {
    pub tariff: TariffPart,
    pub table: PhaseTable,
    pub burst: BurstPart,
}

// What a line is configured with: its pulse length D, its gap G and the clock that it starts from.
#[derive(Clone, Copy, PartialEq, Eq, Debug)]
pub struct Configuration {
    pub pulse: u32,
    pub gap: u32,
    pub clock: u32,
}

// What an on-hook event carries.
#[derive(Clone, Copy, PartialEq, Eq, Debug)]
pub enum Hook {
    Keep,
    Stop,
}

// Why a call was turned down.
#[derive(Clone, Copy, PartialEq, Eq, Debug)]
pub enum Refusal {
    Configuration,
    Period,
    NoEndlessEm,
    Interval,
    Lists,
    Phase,
    Burst,
    BurstRuns,
    Grammar,
    Content,
    Row,
    Place,
    Ticket,
    Serial,
}

// What the table of refusals makes of a call: it is allowed, or turned down for a cause.
pub type Ruling = Result<(), Refusal>;
