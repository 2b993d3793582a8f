// A tick of the card.
ghost use Rattle.std.specs.Prelude.{◌≡◌};
ghost use Rattle.dispatcher.specs.Dispatch.{fresh_dispatcher, dispatch_of, row_of};

use super::{Dispatched, Dispatcher, Waiting};
use descriptor::Refusal;
use line::Line;

impl Dispatcher {
    // With no row yet, and nothing to tell.
    #[tactic(auto, unfolding(crate::specs::Dispatch::fresh_dispatcher))]
    pub fn new() -> Dispatcher
        ensures { result ≡ fresh_dispatcher }
    {
        Dispatcher {
            length: None,
            next: 0,
            waiting: [Waiting::default(); 64],
        }
    }

    // Ticks every line of a lent row once, gathers what they tell, and serves the line whose turn it is. A row that is
    // refused stays as it is.
    pub fn tick(self, row: &mut [Line]) -> Dispatched
        ensures answer { result ≡ dispatch_of self row.old }
        ensures row_after { row.new ≡ row_of self row.old }
    {
        let n = row.len();
        if self.refuses(n) {
            return Dispatched {
                dispatcher: self,
                reply: Err(Refusal::Row),
            };
        }
        let mut dispatcher = self;
        // Stays: by the place. `zip` with what waits was tried: std says what each reference holds when it is lent, and
        // after the loop only the length of the row is known, not its lines.
        for (i, line) in row.iter_mut().enumerate() {
            dispatcher.gather(i, lent::tick_in_place(line));
        }
        let sent = dispatcher.serve(n);
        Dispatched {
            dispatcher,
            reply: Ok(sent),
        }
    }
}
