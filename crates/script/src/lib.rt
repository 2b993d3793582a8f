// The languages of the programs `meter` and `card`: what each line of their input asks. `by_count` reads numbers with it.
#![tactic(auto)]

use descriptor::{BurstPart, Configuration, Hook, TariffPart};
use short_list::ShortList;

mod card_lines;
mod commands;
mod groups;
mod numbers;
mod parts;
mod phases;
mod placed;
mod words;

pub use card_lines::read_card;
pub use commands::read_command;
pub use groups::group_places;
pub use numbers::next_number;
pub use phases::read_phase;
pub use words::ended;

// What a line that `meter` reads asks. `phases` is the number of phase lines that follow.
// Stays: no line follows `ph 0` and the other tariffs alike, so 0 is a number here and no case of its own. Setting and
// clearing a report period are two cases, as they are two calls of the line.
#[derive(Clone, Copy, PartialEq, Eq, Debug)]
pub enum Command {
    Configure(Configuration),
    Period(u32),
    NoPeriod,
    Describe {
        tariff: TariffPart,
        phases: u32,
        burst: BurstPart,
    },
    OnHook(Hook),
    Run(u32),
}

// The places of a group.
pub type Places = ShortList<64>;

// How a descriptor is given to a line: to be taken, to be asked only, or to be committed with the ticket of an ask.
#[derive(Clone, Copy, PartialEq, Eq, Debug)]
pub enum Giving {
    Take,
    Ask,
    Commit(u32),
}

// The place of the line that something is for, and how a descriptor is given to that line.
#[derive(Clone, Copy, PartialEq, Eq, Debug)]
pub struct Target {
    pub place: u32,
    pub giving: Giving,
}

// What a line of a card's script asks. Only a descriptor is asked or committed. A text is the end of the line, and so is
// the text of a group's places, which `group_places` reads.
#[derive(Clone, Copy, PartialEq, Eq, Debug)]
pub enum CardCommand<'a> {
    Configure(Configuration),
    On { target: Target, command: Command },
    Audit(u32),
    Text { target: Target, text: &'a [u8] },
    Tick(u32),
    Group { interval: u32, places: &'a [u8] },
}
