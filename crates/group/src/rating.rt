// A rate command for a group: all lines are asked, and then all are rated, or none.
ghost use Rattle.std.specs.Prelude.{◌≡◌};
ghost use Rattle.group.specs.Groups.{rate_of, rated_row, verdict_of, row_of};
ghost use Rattle.group.specs.Marks.{named_low};

use super::asking::{answer, asked};
use super::marks::{is_unmarked, with_mark};
use line::{Line, Verdict};

// Gives the rate command to a lent line. Only its serial and its state are stored.
fn take_rate(line: &mut Line, interval: u32)
    ensures { line.new ≡ (rate_of line.old interval).line }
{
    if answer(line, interval).is_ok() {
        line.serial = line.serial.saturating_add(1);
        line.state = line.state.rated(interval);
    }
}

// Gives the rate command to the line at each place of a list, once. A place above 63 has no mark, and is left out.
fn rate_named(row: &mut [Line], places: &[u32], interval: u32)
    ensures { row.new ≡ rated_row (named_low places.now) interval row.old }
{
    let mut marks = 0;
    for &place in places {
        let i = place as usize;
        if is_unmarked(marks, place) && i < row.len() {
            take_rate(&mut row[i], interval);
        }
        marks = with_mark(marks, place);
    }
}

// Gives the rate command, burst keep, to the lines at the places of a list, each of them once, if all of them accept
// it. Where the group is refused the row stays as it is.
pub fn rate(row: &mut [Line], places: &[u32], interval: u32) -> Verdict
    ensures answer { result ≡ verdict_of row.old places.now interval }
    ensures row_after { row.new ≡ row_of row.old places.now interval }
{
    let cancelled = asked(row, places, interval)?;
    rate_named(row, places, interval);
    Ok(cancelled)
}
