// Whose turn it is: the first line with something to tell, going round.
ghost use Rattle.std.specs.Prelude.{◌≡◌, ◌-◌};
ghost use Rattle.dispatcher.specs.Dispatch.{tells, waits_in, first_from, turn_of, place_after};

use super::Dispatcher;

// The place after i in a row of n.
// Stays: the next below an end, as `next_entry` of steps has it on u64; shared on that, this call needs three casts.
pub(crate) fn place_after(n: usize, i: usize) -> usize
    ensures { result ≡ place_after n i }
{
    if i < n && i + 1 < n { i + 1 } else { 0 }
}

impl Dispatcher {
    // The first place from `from` on and before `to` with something to tell.
    fn first_from(&self, from: usize, to: usize) -> Option<usize>
        ensures { result ≡ first_from (λ i. tells (waits_in self.now.waiting i)) (to - from) from }
    {
        (from..to).find(|&i| self.waits_at(i).tells())
    }

    // Whose turn it is in a row of n: from the place after the last served to the end, and then from place 0.
    pub(crate) fn turn(&self, n: usize) -> Option<usize>
        ensures { result ≡ turn_of (waits_in self.now.waiting) n self.now.next }
    {
        self.first_from(self.next, n)
            .or_else(|| self.first_from(0, n.min(self.next)))
    }
}
