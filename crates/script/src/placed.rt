// What is for the line at a place: a command of `meter`, `audit`, or a descriptor, which may be asked or committed.
ghost use Rattle.std.specs.Prelude.{◌≡◌, Some};
ghost use Rattle.script.specs.Words.{words_of};
ghost use Rattle.script.specs.Readers.{give};
ghost use Rattle.script.specs.Told.{told_line};
ghost use Rattle.script.specs.Cards.{target, given, of_place, commit, other, placed, at_place};

use super::commands::{next_describe, next_hook, next_period};
use super::numbers::next_number;
use super::words::{next_word, past_blanks};
use super::{CardCommand, Command, Giving, Target};

// The line at a place, to which a descriptor is given so.
fn target(place: u32, giving: Giving) -> Target
    ensures { result ≡ target place giving }
{
    Target { place, giving }
}

// A command of `meter` that was read, on the line at a place.
fn of_place<'a>(target: Target, read: (Command, &'a [u8])) -> (CardCommand<'a>, &'a [u8])
    ensures { told_line (Some result) ≡ give (of_place target read.entry.0) (words_of read.entry.1.now) }
{
    let (command, rest) = read;
    (CardCommand::On { target, command }, rest)
}

// Reads a descriptor: a text, up to the end of the line, or `sig`.
#[tactic(auto, unfolding(crate::specs::Words::words_of))]
fn next_given(line: &[u8], target: Target) -> Option<(CardCommand<'_>, &[u8])>
    ensures { told_line result ≡ given target line.now (words_of line.now) }
{
    let (word, past) = next_word(line);
    if word.starts_with(b"SG") {
        let text = CardCommand::Text {
            target,
            text: past_blanks(line),
        };
        return Some((text, &[]));
    }
    match word {
        b"sig" => Some(of_place(target, next_describe(past)?)),
        _ => None,
    }
}

// Reads what follows `commit`: the ticket, and a descriptor.
fn next_commit(line: &[u8], place: u32) -> Option<(CardCommand<'_>, &[u8])>
    ensures { told_line result ≡ commit line.now place (words_of line.now) }
{
    let (ticket, rest) = next_number(line)?;
    next_given(rest, target(place, Giving::Commit(ticket)))
}

// Reads what follows the place, where that is no descriptor to be taken.
fn next_other(line: &[u8], place: u32) -> Option<(CardCommand<'_>, &[u8])>
    ensures { told_line result ≡ other line.now place (words_of line.now) }
{
    let (word, rest) = next_word(line);
    let taking = target(place, Giving::Take);
    match word {
        b"audit" => Some((CardCommand::Audit(place), rest)),
        b"rp" => Some(of_place(taking, next_period(rest)?)),
        b"hook" => Some(of_place(taking, next_hook(rest)?)),
        b"ask" => next_given(rest, target(place, Giving::Ask)),
        b"commit" => next_commit(rest, place),
        _ => None,
    }
}

// Reads what follows the place.
fn next_placed(line: &[u8], place: u32) -> Option<(CardCommand<'_>, &[u8])>
    ensures { told_line result ≡ placed line.now place (words_of line.now) }
{
    next_given(line, target(place, Giving::Take)).or_else(|| next_other(line, place))
}

// Reads what follows `at`: the place, and what is for the line there.
pub(crate) fn next_at(line: &[u8]) -> Option<(CardCommand<'_>, &[u8])>
    ensures { told_line result ≡ at_place line.now (words_of line.now) }
{
    let (place, rest) = next_number(line)?;
    next_placed(rest, place)
}
