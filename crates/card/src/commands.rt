// What each line of a script does to the card.
use super::cards::{Card, put, put_answer};
use super::pending::Pending;
use descriptor::Descriptor;
use line::{Audited, Line};
use outlet::Outlet;
use phase_lines::Waiting;
use phases::Phases;
use printing::{Answer, counters_text};
use programs::Program;
use script::{CardCommand, Command, Target};
use std::io;
use std::io::Stdout;

// Puts the counters of a line.
fn put_counters(out: &mut Outlet<Stdout>, audit: Audited) -> io::Result<()> {
    put(out, &counters_text(audit.cpc, audit.pcslr))
}

impl Card {
    // Obeys a command on its line. A descriptor may wait for phase lines first.
    // Stays: arms as in meter, which has one line and takes each descriptor. A function for both would take closures for
    // where the line lies and for how a descriptor is given to it, and is no plainer.
    fn on(
        &mut self,
        target: Target,
        line: Line,
        command: Command,
        out: &mut Outlet<Stdout>,
    ) -> io::Result<()> {
        let place = target.place;
        match command {
            Command::Period(rp) => self.answered(place, line.set_period(rp), out),
            Command::NoPeriod => self.answered(place, line.clear_period(), out),
            Command::Describe { phases, burst, .. } if phases > 0 => {
                self.pending = Some(Pending {
                    target,
                    waiting: Waiting::new(phases, burst),
                });
                Ok(())
            }
            Command::Describe { tariff, burst, .. } => {
                let none = Phases::new();
                self.give(target, line, none.descriptor(tariff, burst), out)
            }
            Command::OnHook(event) => self.answered(place, line.hook(event), out),
            Command::Configure(_) | Command::Run(_) => put_answer(out, Answer::Bad),
        }
    }

    // Obeys a command. One at a place outside the row is bad.
    fn obey(&mut self, command: CardCommand, out: &mut Outlet<Stdout>) -> io::Result<()> {
        match command {
            CardCommand::Configure(given) => self.configure(given, out),
            CardCommand::Tick(n) => self.run(n, out),
            CardCommand::Group { interval, places } => {
                let places = script::group_places(places);
                let verdict = self.rate(places.as_slice(), interval);
                put_answer(out, Answer::from(verdict))
            }
            CardCommand::On { target, command } => match self.line_at(target.place).copied() {
                Some(line) => self.on(target, line, command, out),
                None => put_answer(out, Answer::Bad),
            },
            CardCommand::Audit(place) => match self.line_at(place) {
                Some(line) => put_counters(out, line.audit()),
                None => put_answer(out, Answer::Bad),
            },
            CardCommand::Text { target, text } => match self.line_at(target.place).copied() {
                Some(line) => self.give(target, line, Descriptor::Text(text), out),
                None => put_answer(out, Answer::Bad),
            },
        }
    }

    // Obeys a descriptor that waits, once its phase lines have come.
    // Stays: steps as in meter, where no target stands beside what waits; a function for both would take the closures
    // of `on`.
    fn gather(&mut self, pending: Pending, out: &mut Outlet<Stdout>) -> io::Result<()> {
        if pending.waiting.missing > 0 {
            self.pending = Some(pending);
            return Ok(());
        }
        let Pending { target, waiting } = pending;
        match (self.line_at(target.place).copied(), waiting.descriptor()) {
            (Some(line), Some(given)) => self.give(target, line, given, out),
            _ => put_answer(out, Answer::Bad),
        }
    }
}

impl Program<Stdout> for Card {
    // Reads a line of the script and obeys it: a command, or a phase line that a descriptor waits for.
    fn read(&mut self, text: &[u8], out: &mut Outlet<Stdout>) -> io::Result<()> {
        if let Some(mut pending) = self.pending.take() {
            pending.waiting = pending.waiting.with(script::read_phase(text));
            return self.gather(pending, out);
        }
        match script::read_card(text) {
            Some(command) => self.obey(command, out),
            None => put_answer(out, Answer::Bad),
        }
    }

    // At the end of the input, a descriptor whose phase lines are missing is bad.
    // Stays: the same lines as in meter; a shared one needs a test for what waits and the text, and is no plainer.
    fn close(&self, out: &mut Outlet<Stdout>) -> io::Result<()> {
        if self.pending.is_some() {
            put_answer(out, Answer::Bad)?;
        }
        out.flush()
    }
}
