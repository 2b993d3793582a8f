// The two parts of a descriptor, as `sig T U` gives them.
ghost use Rattle.std.specs.Prelude.{◌≡◌};
ghost use Rattle.script.specs.Words.{words_of};
ghost use Rattle.script.specs.Told.{told};
ghost use Rattle.script.specs.Commands.{rate, em, phased, tariff_part, burst, burst_part};

use super::numbers::next_number;
use super::words::next_word;
use descriptor::{BurstPart, TariffPart};
use tariff::Em;

// Reads what follows `rate`: P.
fn next_rate(line: &[u8]) -> Option<((TariffPart, u32), &[u8])>
    ensures { told result ≡ rate (words_of line.now) }
{
    let (interval, line) = next_number(line)?;
    Some(((TariffPart::Rate { interval }, 0), line))
}

// Reads what follows `em`: C and P.
fn next_em(line: &[u8]) -> Option<((TariffPart, u32), &[u8])>
    ensures { told result ≡ em (words_of line.now) }
{
    let (count, line) = next_number(line)?;
    let (period, line) = next_number(line)?;
    Some(((TariffPart::Em(Em { count, period }), 0), line))
}

// Reads what follows `ph`: K.
fn next_phased(line: &[u8]) -> Option<((TariffPart, u32), &[u8])>
    ensures { told result ≡ phased (words_of line.now) }
{
    let (phases, line) = next_number(line)?;
    (phases <= 9).then_some(((TariffPart::Phased, phases), line))
}

// Reads T: none, keep, rate P, em C P, or ph K. With it goes the number of phase lines that follow.
pub(crate) fn next_tariff(line: &[u8]) -> Option<((TariffPart, u32), &[u8])>
    ensures { told result ≡ tariff_part (words_of line.now) }
{
    let (word, line) = next_word(line);
    match word {
        b"none" => Some(((TariffPart::None, 0), line)),
        b"keep" => Some(((TariffPart::Keep, 0), line)),
        b"rate" => next_rate(line),
        b"em" => next_em(line),
        b"ph" => next_phased(line),
        _ => None,
    }
}

// Reads what follows `burst`: n and P.
fn next_start(line: &[u8]) -> Option<(BurstPart, &[u8])>
    ensures { told result ≡ burst (words_of line.now) }
{
    let (pulses, line) = next_number(line)?;
    let (interval, line) = next_number(line)?;
    Some((BurstPart::Start { pulses, interval }, line))
}

// Reads U: none, keep, or burst n P.
pub(crate) fn next_burst(line: &[u8]) -> Option<(BurstPart, &[u8])>
    ensures { told result ≡ burst_part (words_of line.now) }
{
    let (word, line) = next_word(line);
    match word {
        b"none" => Some((BurstPart::None, line)),
        b"keep" => Some((BurstPart::Keep, line)),
        b"burst" => next_start(line),
        _ => None,
    }
}
