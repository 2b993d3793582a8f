// The commands of `meter`.
ghost use Rattle.std.specs.Prelude.{◌≡◌};
ghost use Rattle.script.specs.Words.{words_of};
ghost use Rattle.script.specs.Told.{told};
ghost use Rattle.script.specs.Commands.{configure, period, describe, hook, run, command, command_of};

use super::Command;
use super::numbers::{next_number, number_in};
use super::parts::{next_burst, next_tariff};
use super::words::{next_word, whole};
use descriptor::{Configuration, Hook};

// Reads what follows `cfg`: D, G and the clock.
pub(crate) fn next_configure(line: &[u8]) -> Option<(Command, &[u8])>
    ensures { told result ≡ configure (words_of line.now) }
{
    let (pulse, line) = next_number(line)?;
    let (gap, line) = next_number(line)?;
    let (clock, line) = next_number(line)?;
    let given = Configuration { pulse, gap, clock };
    Some((Command::Configure(given), line))
}

// Reads what follows `rp`: off, or N.
pub(crate) fn next_period(line: &[u8]) -> Option<(Command, &[u8])>
    ensures { told result ≡ period (words_of line.now) }
{
    let (word, line) = next_word(line);
    match word {
        b"off" => Some((Command::NoPeriod, line)),
        _ => Some((Command::Period(number_in(word)?), line)),
    }
}

// Reads what follows `sig`: T and U.
pub(crate) fn next_describe(line: &[u8]) -> Option<(Command, &[u8])>
    ensures { told result ≡ describe (words_of line.now) }
{
    let ((tariff, phases), line) = next_tariff(line)?;
    let (burst, line) = next_burst(line)?;
    let command = Command::Describe {
        tariff,
        phases,
        burst,
    };
    Some((command, line))
}

// Reads what follows `hook`: keep, or stop.
pub(crate) fn next_hook(line: &[u8]) -> Option<(Command, &[u8])>
    ensures { told result ≡ hook (words_of line.now) }
{
    let (word, line) = next_word(line);
    match word {
        b"keep" => Some((Command::OnHook(Hook::Keep), line)),
        b"stop" => Some((Command::OnHook(Hook::Stop), line)),
        _ => None,
    }
}

// Reads what follows `run`: T.
pub(crate) fn next_run(line: &[u8]) -> Option<(Command, &[u8])>
    ensures { told result ≡ run (words_of line.now) }
{
    let (ticks, line) = next_number(line)?;
    (ticks <= 1_000_000).then_some((Command::Run(ticks), line))
}

// Reads a command.
fn next_command(line: &[u8]) -> Option<(Command, &[u8])>
    ensures { told result ≡ command (words_of line.now) }
{
    let (word, line) = next_word(line);
    match word {
        b"cfg" => next_configure(line),
        b"rp" => next_period(line),
        b"sig" => next_describe(line),
        b"hook" => next_hook(line),
        b"run" => next_run(line),
        _ => None,
    }
}

// Reads the line of a command, without its line feed.
pub fn read_command(line: &[u8]) -> Option<Command>
    ensures { result ≡ command_of line.now }
{
    whole(next_command(line))
}
