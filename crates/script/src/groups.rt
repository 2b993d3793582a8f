// The line of a group: `group P I J ..`.
ghost use Rattle.std.specs.Prelude.{◌≡◌};
ghost use Rattle.script.specs.Words.{words_of};
ghost use Rattle.script.specs.Told.{told, told_line};
ghost use Rattle.script.specs.Cards.{numbers, group, places_at};

use super::numbers::next_number;
use super::words::ended;
use super::{CardCommand, Places};

// Reads at most 64 places, up to the last word.
fn next_places(line: &[u8]) -> Option<(Places, &[u8])>
    ensures { told result ≡ numbers 64 (words_of line.now) }
{
    let mut places = Places::new();
    let mut rest = line;
    // Stays: the room or the line's end stops it; a `for` over the room needs a break, and is no plainer.
    while !places.is_full() && !ended(rest) {
        let (place, past) = next_number(rest)?;
        places.push(place);
        rest = past;
    }
    Some((places, rest))
}

// Reads what follows `group`: P, and none to 64 places.
pub(crate) fn next_group(line: &[u8]) -> Option<(CardCommand<'_>, &[u8])>
    ensures { told_line result ≡ group (words_of line.now) }
{
    let (interval, places) = next_number(line)?;
    let Some((_, rest)) = next_places(places) else {
        return None;
    };
    Some((CardCommand::Group { interval, places }, rest))
}

// The places of a group, from the text of its command: its first 64 numbers, and none where a word of these is none.
pub fn group_places(text: &[u8]) -> Places
    ensures { result ≡ places_at text.now }
{
    match next_places(text) {
        Some((places, _)) => places,
        None => Places::new(),
    }
}
