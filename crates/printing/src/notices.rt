// The text of a notice, and the text of a line's counters.
ghost use Rattle.std.specs.Prelude.{◌≡◌};
ghost use Rattle.printing.specs.Text.{notice_text, counters_text};

use super::text::{Text, pair};

// The line of a notice. Not inlined, as `answer_text` is not.
// Stays: its numbers, and no notice of the dispatcher, which the other program that prints does not have.
#[inline(never)]
pub fn notice_text(tick: u32, place: u32, tariff: bool, burst: bool, reports: u32) -> Text
    ensures { result ≡ notice_text tick place tariff burst reports }
{
    let mut text = Text::new();
    text.put_around(b"n ", tick, b" ");
    text.put_number(place, b" ");
    text.put_number(u32::from(tariff), b" ");
    text.put_number(u32::from(burst), b" ");
    text.put_number(reports, b"\n");
    text
}

// The line of the counters.
pub fn counters_text(cpc: u32, pcslr: u32) -> Text
    ensures { result ≡ counters_text cpc pcslr }
{
    pair(b"a ", cpc, pcslr)
}
