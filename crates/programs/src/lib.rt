// A program that reads its input line by line, and the loop that hands it each line.
#![tactic(auto)]

ghost use Rattle.std.specs.Prelude.{◌≡◌, OnOk, Option, List, [], ℕ};
ghost use Rattle.outlet.specs.Held.{known_of};
ghost use Rattle.programs.specs.Serving.{Grows, Handed, Put, Serves, stand};

use lines::{Input, Span};
use outlet::Outlet;
use std::io;
use std::io::{Read, Write};

// A program that reads lines, and puts what it has to say of each.
pub trait Program<W: Write> {
    // What a line may make of the program.
    ghost reads: { Self → List ℕ → Self → Type 0 } = { λ _ _ _. Unit {0} };

    // What the program may make of its output at a line: what is known of it before, and after. Unless the program says
    // otherwise, known output stays at the front. Of what goes to a `Stdout` nothing is known.
    ghost puts: { Self → List ℕ → Option (List ℕ) → Option (List ℕ) → Type 0 } = { λ _ _ old new. Grows old new };

    // Reads a line.
    fn read(&mut self, text: &[u8], out: &mut Outlet<W>) -> io::Result<()>
        ensures program { reads self.old text.now self.new }
        ensures output { OnOk result (puts self.old text.now (known_of W.contents out.old)
            (known_of W.contents out.new)) };

    // A line that is too long is read as an empty one.
    fn too_long(&mut self, out: &mut Outlet<W>) -> io::Result<()>
        ensures program { reads self.old [] self.new }
        ensures output { OnOk result (puts self.old [] (known_of W.contents out.old)
            (known_of W.contents out.new)) }
    {
        self.read(b"", out)
    }

    // At the end of the input. Where it answers Ok, known output stays at the front, and nothing is held back.
    fn close(&self, out: &mut Outlet<W>) -> io::Result<()>
        ensures sent { OnOk result (out.new.held.items ≡ []) }
        ensures output { OnOk result (Grows (known_of W.contents out.old) (known_of W.contents out.new)) }
    {
        out.flush()
    }
}

// Hands over a line of the input. Where there is no line yet, the outlet is flushed, and known output stays as it is.
fn react<R, const N: usize, W: Write, P: Program<W>>(
    program: &mut P,
    input: &Input<R, N>,
    line: Option<Span>,
    out: &mut Outlet<W>,
) -> io::Result<()>
    ensures program { Handed P.reads input.now.buf line program.old program.new }
    ensures output { OnOk result (Put P.puts input.now.buf line program.old (known_of W.contents out.old)
        (known_of W.contents out.new)) }
{
    match line {
        Some(line) if line.whole => program.read(input.text(line), out),
        Some(_) => program.too_long(out),
        None => out.flush(),
    }
}

// Hands over each line of the input that is not yet taken, and closes at its end. Where it answers Ok, the input stands
// at its end, nothing is held back, known output changed as the program says of each line, and what was known before
// the close stays at the front. A proved loop has to end, and nothing says that the input does: the steps are counted
// up to a number that no run reaches.
pub fn serve<R: Read, const N: usize, W: Write, P: Program<W>>(
    program: &mut P,
    input: &mut Input<R, N>,
    out: &mut Outlet<W>,
) -> io::Result<()>
    ensures sent { OnOk result (out.new.held.items ≡ []) }
    ensures served { OnOk result (Serves P.reads P.puts
        (stand input.old.at input.old.buf program.old (known_of W.contents out.old))
        (stand input.new.at input.new.buf program.new (known_of W.contents out.new))) }
{
    for _ in 0..u64::MAX {
        let line = input.next();
        if input.is_over(line) {
            break;
        }
        react(program, input, line, out)?;
        input.onward(line);
    }
    program.close(out)
}
