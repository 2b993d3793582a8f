// The lines that the program reads: `S a b ci pd pri`.
ghost use Rattle.std.specs.Prelude.{◌≡◌};
ghost use Rattle.by_count.specs.Requests.{request_of};

use phase_total::Charging;
use script::{ended, next_number};

// A line's spacing, and what a phase is to charge.
#[derive(Clone, Copy)]
pub struct Request {
    pub spacing: u32,
    pub charging: Charging,
}

// Reads a line: six numbers, and nothing else.
pub(crate) fn read(line: &[u8]) -> Option<Request>
    ensures { result ≡ request_of line.now }
{
    let (spacing, line) = next_number(line)?;
    let (a, line) = next_number(line)?;
    let (b, line) = next_number(line)?;
    let (ci, line) = next_number(line)?;
    let (pd, line) = next_number(line)?;
    let (pri, line) = next_number(line)?;
    ended(line).then_some(Request {
        spacing,
        charging: Charging { a, b, ci, pd, pri },
    })
}
