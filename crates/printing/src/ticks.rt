// The text of what a tick tells.
ghost use Rattle.std.specs.Prelude.{◌≡◌, ◌++◌};
ghost use Rattle.printing.specs.Bytes.{bytes};
ghost use Rattle.printing.specs.Text.{digits_of, when, front_text, tick_text};
ghost use Rattle.printing.specs.Room.{extended};

use super::text::Text;
use answers::{Front, Tick};

// Puts a number between two texts where that line is told.
fn put_told(text: &mut Text, told: bool, head: &[u8], n: u32, tail: &[u8])
    ensures { text.new ≡ extended text.old (when told (head.now ++ digits_of n ++ tail.now)) }
{
    if told {
        text.put_around(head, n, tail);
    }
}

// Puts the line of a front with the letter that stands between its numbers.
fn put_letter(text: &mut Text, clock: u32, letter: &[u8], cpc: u32)
    ensures { text.new ≡ extended text.old (bytes "f " ++ digits_of clock ++ letter.now ++ digits_of cpc ++ bytes "\n") }
{
    text.put_around(b"f ", clock, letter);
    text.put_number(cpc, b"\n");
}

// Puts the line of a front, if there is one.
fn put_front(text: &mut Text, clock: u32, cpc: u32, front: Option<Front>)
    ensures { text.new ≡ extended text.old (front_text clock cpc front) }
{
    match front {
        None => {}
        Some(Front::Tariff) => put_letter(text, clock, b" b ", cpc),
        Some(Front::Burst) => put_letter(text, clock, b" m ", cpc),
    }
}

// The lines of a tick, none where it tells nothing: completions, front and report, in this order.
pub fn tick_text(clock: u32, cpc: u32, tick: Tick) -> Text
    ensures { result ≡ tick_text clock cpc tick }
{
    let mut text = Text::new();
    put_told(&mut text, tick.tariff, b"c ", clock, b" b\n");
    put_told(&mut text, tick.burst, b"c ", clock, b" m\n");
    put_front(&mut text, clock, cpc, tick.front);
    put_told(&mut text, tick.report, b"r ", clock, b"\n");
    text
}
