// A card: its row of lines, what each of them answers, and what is printed of it.
ghost use Rattle.std.specs.Prelude.{◌≡◌};
ghost use Rattle.group.specs.Groups.{row_of, verdict_of};

use super::pending::Pending;
use arrayvec::ArrayVec;
use descriptor::{Configuration, Descriptor};
use dispatcher::Dispatcher;
use line::{Answered, Asked, Line, Verdict};
use outlet::Outlet;
use printing::{Answer, ROOM, Text, answer_text, asked_text};
use script::{Giving, Target};
use std::io;
use std::io::Stdout;

// A card: its row of lines, the number of ticks so far, held at the largest number, the dispatcher, and the descriptor
// that waits for phase lines, if one does.
#[derive(Drop)]
pub struct Card {
    pub lines: ArrayVec<Line, 65>,
    pub ticks: u32,
    pub dispatcher: Dispatcher,
    pub pending: Option<Pending>,
}

// Puts a text in one piece: no write ends within it.
// Stays: this and `put_answer`, here and in meter, since printing gives texts and writes none; a crate is no plainer.
pub(crate) fn put(out: &mut Outlet<Stdout>, text: &Text) -> io::Result<()> {
    out.put(text.as_slice(), ROOM)
}

// Puts an answer.
pub(crate) fn put_answer(out: &mut Outlet<Stdout>, answer: Answer) -> io::Result<()> {
    put(out, &answer_text(answer))
}

impl Card {
    pub(crate) fn new() -> Card {
        Card {
            lines: ArrayVec::new(),
            ticks: 0,
            dispatcher: Dispatcher::new(),
            pending: None,
        }
    }

    // The line at a place of the row, if there is one.
    pub(crate) fn line_at(&mut self, place: u32) -> Option<&mut Line> {
        let place = usize::try_from(place).ok()?;
        self.lines.get_mut(place)
    }

    // One more line at the end of the row, if there is room. A refused configuration adds none.
    pub(crate) fn configure(
        &mut self,
        given: Configuration,
        out: &mut Outlet<Stdout>,
    ) -> io::Result<()> {
        if self.lines.is_full() {
            return put_answer(out, Answer::Bad);
        }
        let made = Line::make(given);
        if let Ok(line) = made {
            self.lines.push(line);
        }
        put_answer(out, Answer::from(line::making_verdict(made)))
    }

    // Gives the rate command, burst keep, to the lines at the places of a list: to all of them or to none. The rest of
    // the card stays.
    pub(crate) fn rate(&mut self, places: &[u32], interval: u32) -> Verdict
        ensures answer { result ≡ verdict_of self.old.lines.items places.now interval }
        ensures row_after { self.new.lines.items ≡ row_of self.old.lines.items places.now interval }
        ensures ticks { self.new.ticks ≡ self.old.ticks }
        ensures dispatcher { self.new.dispatcher ≡ self.old.dispatcher }
        ensures pending { self.new.pending ≡ self.old.pending }
    {
        group::rate(self.lines.as_mut_slice(), places, interval)
    }

    // Takes the line that a command at a place handed back, and puts its answer.
    pub(crate) fn answered(
        &mut self,
        place: u32,
        answer: Answered,
        out: &mut Outlet<Stdout>,
    ) -> io::Result<()> {
        if let Some(line) = self.line_at(place) {
            *line = answer.line;
        }
        put_answer(out, Answer::from(answer.verdict))
    }

    // Gives a descriptor to its line: it is taken, asked only, which leaves the line as it was, or committed.
    pub(crate) fn give(
        &mut self,
        target: Target,
        line: Line,
        given: Descriptor,
        out: &mut Outlet<Stdout>,
    ) -> io::Result<()> {
        let place = target.place;
        match target.giving {
            Giving::Take => self.answered(place, line.describe(given), out),
            Giving::Ask => put_asked(out, line.ask(given)),
            Giving::Commit(ticket) => self.answered(place, line.commit(ticket, given), out),
        }
    }
}

// Puts what asking tells.
fn put_asked(out: &mut Outlet<Stdout>, told: Asked) -> io::Result<()> {
    let answer = Answer::from(told.verdict);
    put(out, &asked_text(answer, told.ticket))
}
