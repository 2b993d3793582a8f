// The line of a phase: `pri pcx repx pcn repn ci pd`.
ghost use Rattle.std.specs.Prelude.{◌≡◌};
ghost use Rattle.script.specs.Commands.{phase_line_of};

use super::numbers::next_number;
use super::words::ended;
use tariff::Phase;

// Reads the line of a phase: seven numbers, and nothing else.
pub fn read_phase(line: &[u8]) -> Option<Phase>
    ensures { result ≡ phase_line_of line.now }
{
    let (pri, line) = next_number(line)?;
    let (pcx, line) = next_number(line)?;
    let (repx, line) = next_number(line)?;
    let (pcn, line) = next_number(line)?;
    let (repn, line) = next_number(line)?;
    let (ci, line) = next_number(line)?;
    let (pd, line) = next_number(line)?;
    ended(line).then_some(Phase {
        pri,
        pcx,
        repx,
        pcn,
        repn,
        ci,
        pd,
    })
}
