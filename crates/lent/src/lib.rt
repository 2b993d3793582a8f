// A tick on a line record that its caller lends.
#![tactic(auto)]

ghost use Rattle.std.specs.Prelude.{◌≡◌};
ghost use Rattle.line.specs.Lines.{tick_of};

use answers::Tick;
use line::Line;

// One tick of a lent line, which is moved on where it is held: only its state is stored, and a quiet line is not
// copied.
#[tactic(auto, using(crate::proofs::LineTicks::any_tick, crate::proofs::LineTicks::quiet_tick))]
pub fn tick_in_place(line: &mut Line) -> Tick
    ensures told { result ≡ (tick_of line.old).tick }
    ensures moved { line.new ≡ (tick_of line.old).line }
{
    if line.state.is_quiet(line.pulse, line.spacing) {
        line.state.tick_quietly(line.spacing);
        return Tick::default();
    }
    let moved = line.moved();
    line.state = moved.state;
    moved.tick
}
