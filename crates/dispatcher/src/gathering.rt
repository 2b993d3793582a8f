// What the ticks of the lines leave to be told.
ghost use Rattle.std.specs.Prelude.{◌≡◌, ◌||◌};
ghost use Rattle.dispatcher.specs.Dispatch.{tells, gathered, waits_in};
ghost use Rattle.dispatcher.specs.ByLine.{gathered_at};

use super::{Dispatcher, Waiting};
use answers::Tick;

// Whether a tick gives a report or completes something.
fn has_news(tick: Tick) -> bool
    ensures { result ≡ (tick.tariff || (tick.burst || tick.report)) }
{
    tick.tariff || tick.burst || tick.report
}

impl Waiting {
    // Whether there is something to tell.
    pub(crate) fn tells(self) -> bool
        ensures { result ≡ tells self }
    {
        self.tariff || self.burst || self.reports > 0
    }

    // With the completions and the report of one more tick. The number of reports is held at the largest number.
    fn gathered(self, tick: Tick) -> Waiting
        ensures { result ≡ gathered self tick }
    {
        Waiting {
            tariff: self.tariff || tick.tariff,
            burst: self.burst || tick.burst,
            reports: self.reports.saturating_add(u32::from(tick.report)),
        }
    }
}

impl Dispatcher {
    // What waits of the line at place i.
    pub(crate) fn waits_at(&self, i: usize) -> Waiting
        ensures { result ≡ waits_in self.now.waiting i }
    {
        self.waiting.get(i).copied().unwrap_or_default()
    }

    // Adds what the tick of the line at place i told.
    // Stays: a test of the place. `get_mut` was tried: std says what it finds, and not what the slice holds after a
    // write.
    #[tactic(auto, unfolding(crate::specs::ByLine::gathered_at))]
    pub(crate) fn gather(&mut self, i: usize, tick: Tick)
        ensures { self.new ≡ gathered_at self.old i tick }
    {
        if has_news(tick) && i < self.waiting.len() {
            self.waiting[i] = self.waiting[i].gathered(tick);
        }
    }
}
