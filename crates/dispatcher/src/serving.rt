// The notice of a tick, and the dispatcher after it.
ghost use Rattle.std.specs.Prelude.{◌≡◌};
ghost use Rattle.dispatcher.specs.Dispatch.{bad_row, wrong_row, sent_of, waits_in, turn_of, served_by};

use super::turns::place_after;
use super::{Dispatcher, Notice, Waiting};

// Whether no dispatcher takes a row of n: it is empty or longer than 64.
pub fn is_bad_row(n: usize) -> bool
    ensures { result ≡ bad_row n }
{
    !(1..=64).contains(&n)
}

impl Dispatcher {
    // Whether a row of n is refused: it is empty, longer than 64, or of another length than at first.
    pub(crate) fn refuses(&self, n: usize) -> bool
        ensures { result ≡ wrong_row self.now.length n }
    {
        is_bad_row(n) || self.length.is_some_and(|first| n != first)
    }

    // Serves the line whose turn it is in a row of n: nothing waits of it any more once its notice is sent.
    // Stays: a test of the place, since `get_mut` does not do, as `gather` says.
    pub(crate) fn serve(&mut self, n: usize) -> Option<Notice>
        ensures sent { let waits = waits_in self.old.waiting in
            result ≡ sent_of waits (turn_of waits n self.old.next) }
        ensures after { let turn = turn_of (waits_in self.old.waiting) n self.old.next in
            self.new ≡ served_by n self.old.next self.old.waiting turn }
    {
        let turn = self.turn(n);
        self.length = Some(n);
        let place = turn?;
        self.next = place_after(n, place);
        let told = self.waits_at(place);
        if place < self.waiting.len() {
            self.waiting[place] = Waiting::default();
        }
        Some(Notice { place, told })
    }
}
