// Ticks of a card: the dispatcher ticks the lines of the row where they lie, and its notices are put.
use super::cards::{Card, put, put_answer};
use dispatcher::Notice;
use outlet::Outlet;
use printing::{Answer, notice_text};
use std::io;
use std::io::Stdout;

// Puts the notice of a tick.
fn put_notice(out: &mut Outlet<Stdout>, tick: u32, notice: Notice) -> io::Result<()> {
    let place = u32::try_from(notice.place).unwrap_or(u32::MAX);
    let told = notice.told;
    let text = notice_text(tick, place, told.tariff, told.burst, told.reports);
    put(out, &text)
}

impl Card {
    // Ticks the row n times, and puts each notice. Where the row is refused, no tick follows.
    pub(crate) fn run(&mut self, n: u32, out: &mut Outlet<Stdout>) -> io::Result<()> {
        for _ in 0..n {
            let ticked = self.dispatcher.tick(self.lines.as_mut_slice());
            self.dispatcher = ticked.dispatcher;
            match ticked.reply {
                Err(why) => return put_answer(out, Answer::No(why.number())),
                Ok(told) => {
                    self.ticks = self.ticks.saturating_add(1);
                    if let Some(notice) = told {
                        put_notice(out, self.ticks, notice)?;
                    }
                }
            }
        }
        Ok(())
    }
}
