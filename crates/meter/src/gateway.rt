// What each line of a script does to the line, and what is printed of it.
ghost use Rattle.std.specs.Prelude.{◌≡◌};
ghost use Rattle.meter.specs.Quiet.{quiet_first};

use answers::Tick;
use descriptor::Configuration;
use line::{Answered, Line};
use outlet::Outlet;
use phase_lines::Waiting;
use phases::Phases;
use printing::{Answer, ROOM, Text, answer_text, tick_text};
use programs::Program;
use script::Command;
use state::State;
use std::io;
use std::io::Stdout;

// A gateway: its line, once a configuration was accepted, and the descriptor that waits for phase lines, if one does.
#[derive(Default, Drop)]
pub struct Gateway {
    pub line: Option<Line>,
    pub waiting: Option<Waiting>,
}

// Puts a text in one piece: no write ends within it.
// Stays: this and `put_answer`, here and in card, since printing gives texts and writes none; a crate is no plainer.
fn put(out: &mut Outlet<Stdout>, text: &Text) -> io::Result<()> {
    out.put(text.as_slice(), ROOM)
}

// Puts an answer.
fn put_answer(out: &mut Outlet<Stdout>, answer: Answer) -> io::Result<()> {
    put(out, &answer_text(answer))
}

// Puts what a tick tells, if it tells something.
// Stays: the clock and cpc as two numbers, here and in printing, which stands below the state that they are of.
fn put_tick(out: &mut Outlet<Stdout>, clock: u32, cpc: u32, tick: Tick) -> io::Result<()> {
    if tick == Tick::default() {
        return Ok(());
    }
    put(out, &tick_text(clock, cpc, tick))
}

// The state after the quiet ticks that come first among n, on a line of this pulse length and spacing, and how many of
// the n are left.
fn quiet(mut state: State, pulse: u32, spacing: u32, n: u32) -> (State, u32)
    ensures { result ≡ quiet_first pulse spacing n state }
{
    for done in 0..n {
        if !state.is_quiet(pulse, spacing) {
            return (state, n - done);
        }
        state.tick_quietly(spacing);
    }
    (state, 0)
}

// The line after n ticks; what each tick tells is put. The whole line is looked at only where a tick is busy.
// Stays: quiet ticks in a loop of their own, which skips most turns of this one: in one loop an em took 6.7 ns a tick, and
// at most 3.2 before. The state stands beside the line, since on the field `line.state` it takes 2.4 ns and not 1.8.
fn run(line: Line, n: u32, out: &mut Outlet<Stdout>) -> io::Result<Line> {
    let mut state = line.state;
    let mut left = n;
    for _ in 0..n {
        if state.is_quiet(line.pulse, line.spacing) {
            (state, left) = quiet(state, line.pulse, line.spacing, left);
        }
        if left == 0 {
            break;
        }
        let busy = Line { state, ..line }.moved();
        state = busy.state;
        left -= 1;
        put_tick(out, state.clock, state.counters.cpc, busy.tick)?;
    }
    Ok(Line { state, ..line })
}

impl Gateway {
    // Takes the line that a command handed back, and puts its answer.
    fn answered(&mut self, answer: Answered, out: &mut Outlet<Stdout>) -> io::Result<()> {
        self.line = Some(answer.line);
        put_answer(out, Answer::from(answer.verdict))
    }

    // Makes a new line. A refused configuration leaves the old one.
    fn configure(&mut self, given: Configuration, out: &mut Outlet<Stdout>) -> io::Result<()> {
        let made = Line::make(given);
        if let Ok(line) = made {
            self.line = Some(line);
        }
        put_answer(out, Answer::from(line::making_verdict(made)))
    }

    // Obeys a command on the line. A descriptor may wait for phase lines first.
    // Stays: arms as in card, where a target says where the line lies and how a descriptor is given to it. A function
    // for both would take closures for the two, and is no plainer.
    fn on(&mut self, line: Line, command: Command, out: &mut Outlet<Stdout>) -> io::Result<()> {
        match command {
            Command::Configure(given) => self.configure(given, out),
            Command::Period(rp) => self.answered(line.set_period(rp), out),
            Command::NoPeriod => self.answered(line.clear_period(), out),
            Command::Describe { phases, burst, .. } if phases > 0 => {
                self.waiting = Some(Waiting::new(phases, burst));
                Ok(())
            }
            Command::Describe { tariff, burst, .. } => {
                let none = Phases::new();
                self.answered(line.describe(none.descriptor(tariff, burst)), out)
            }
            Command::OnHook(event) => self.answered(line.hook(event), out),
            Command::Run(ticks) => {
                self.line = Some(run(line, ticks, out)?);
                Ok(())
            }
        }
    }

    // Obeys a command where no line is made: only a configuration is taken.
    fn begin(&mut self, command: Command, out: &mut Outlet<Stdout>) -> io::Result<()> {
        if let Command::Configure(given) = command {
            return self.configure(given, out);
        }
        put_answer(out, Answer::Bad)
    }

    // Obeys what a line of the script asks, which is None where it is bad.
    fn obey(&mut self, command: Option<Command>, out: &mut Outlet<Stdout>) -> io::Result<()> {
        let Some(command) = command else {
            return put_answer(out, Answer::Bad);
        };
        match self.line {
            Some(line) => self.on(line, command, out),
            None => self.begin(command, out),
        }
    }

    // Obeys a descriptor that waits, once its phase lines have come.
    // Stays: steps as in card, which has a target beside what waits; a function for both would take the closures of
    // `on`.
    fn gather(&mut self, waiting: Waiting, out: &mut Outlet<Stdout>) -> io::Result<()> {
        if waiting.missing > 0 {
            self.waiting = Some(waiting);
            return Ok(());
        }
        match (self.line, waiting.descriptor()) {
            (Some(line), Some(given)) => self.answered(line.describe(given), out),
            _ => put_answer(out, Answer::Bad),
        }
    }
}

impl Program<Stdout> for Gateway {
    // Reads a line of the script and obeys it: a command, or a phase line that a descriptor waits for.
    fn read(&mut self, text: &[u8], out: &mut Outlet<Stdout>) -> io::Result<()> {
        match self.waiting.take() {
            Some(waiting) => self.gather(waiting.with(script::read_phase(text)), out),
            None => self.obey(script::read_command(text), out),
        }
    }

    // At the end of the input, a descriptor whose phase lines are missing is bad.
    // Stays: the same lines as in card; a shared one needs a test for what waits and the text, and is no plainer.
    fn close(&self, out: &mut Outlet<Stdout>) -> io::Result<()> {
        if self.waiting.is_some() {
            put_answer(out, Answer::Bad)?;
        }
        out.flush()
    }
}
