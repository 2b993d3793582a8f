// The lines of a card's script.
ghost use Rattle.std.specs.Prelude.{◌≡◌};
ghost use Rattle.script.specs.Words.{words_of};
ghost use Rattle.script.specs.Readers.{valued};
ghost use Rattle.script.specs.Told.{line_in, told_line};
ghost use Rattle.script.specs.Cards.{of_row, card_command, card_command_of};

use super::commands::{next_configure, next_run};
use super::groups::next_group;
use super::placed::next_at;
use super::words::{next_word, whole};
use super::{CardCommand, Command};

// What a command of `meter` that was read asks of the row: `cfg` adds a line to it, and `run` makes ticks of it.
fn of_row<'a>(read: (Command, &'a [u8])) -> Option<(CardCommand<'a>, &'a [u8])>
    ensures { told_line result ≡ valued (of_row read.entry.0) (words_of read.entry.1.now) }
{
    match read {
        (Command::Configure(given), rest) => Some((CardCommand::Configure(given), rest)),
        (Command::Run(ticks), rest) => Some((CardCommand::Tick(ticks), rest)),
        _ => None,
    }
}

// Reads a command of a card.
fn next_card_command(line: &[u8]) -> Option<(CardCommand<'_>, &[u8])>
    ensures { told_line result ≡ card_command line.now (words_of line.now) }
{
    let (word, rest) = next_word(line);
    match word {
        b"cfg" => of_row(next_configure(rest)?),
        b"tick" => of_row(next_run(rest)?),
        b"at" => next_at(rest),
        b"group" => next_group(rest),
        _ => None,
    }
}

// Reads a line of a card's script, without its line feed.
pub fn read_card(line: &[u8]) -> Option<CardCommand<'_>>
    ensures { line_in result ≡ card_command_of line.now }
{
    whole(next_card_command(line))
}
