// The lines that the programs `meter` and `card` print.
// Stays: functions that give texts, and no Display, since all but one print more than one value: an answer with its
// ticket, a tick with clock and cpc, a notice with its tick.
#![tactic(auto)]

ghost use Rattle.std.specs.Prelude.{◌≡◌};
ghost use Rattle.printing.specs.Answers.{answer_of};

mod asks;
mod notices;
mod text;
mod ticks;

pub use asks::{answer_text, asked_text};
use descriptor::Refusal;
pub use notices::{counters_text, notice_text};
pub use text::{ROOM, Text};
pub use ticks::tick_text;

// What a command is answered: the burst pulses cancelled, the number of a refusal, or neither.
// Stays: three answers of the language; `Option<Result<u32, u32>>` is no plainer and no longer names `bad`.
#[derive(Clone, Copy, PartialEq, Eq, Debug)]
pub enum Answer {
    Ok(u32),
    No(u32),
    Bad,
}

// What a call's answer is printed as.
impl From<Result<u32, Refusal>> for Answer {
    ghost from_gives = { λ verdict answer. answer ≡ answer_of verdict };

    fn from(verdict: Result<u32, Refusal>) -> Answer {
        match verdict {
            Ok(cancelled) => Answer::Ok(cancelled),
            Err(why) => Answer::No(why.number()),
        }
    }
}
