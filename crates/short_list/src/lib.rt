// A list of numbers with a fixed room, which can be copied.
#![tactic(auto)]

ghost use Rattle.std.specs.Prelude.{◌≡◌, ◌≤◌, length, nat_lt, not};
ghost use Rattle.short_list.specs.Listing.{no_items, pushed};

use std::marker::Model;

// At most CAP numbers. The places behind them hold 0, so that a list has one form, and a copy of it is the list.
#[derive(Clone, Copy, PartialEq, Eq, Debug)]
pub struct ShortList<const CAP: usize> {
    list: [u32; CAP],
    count: usize,
}

impl<const CAP: usize> Model for ShortList<CAP> {
    ghost use Rattle.std.specs.Prelude.{◌≡◌, ◌≤◌, ◌-◌, ◌++◌, ℕ, List, length, take, drop, replicate};
    ghost use Rattle.std.proofs.Common.{arith, length-take-le};
    ghost use Rattle.short_list.specs.Copied.{refilled};

    ghost Value = { List ℕ };

    ghost view = { λ n. take n.count n.list };

    ghost invariant = { λ n. (n.count ≤ CAP) × (length n.list ≡ CAP) × (drop n.count n.list ≡ replicate (CAP - n.count) 0) };

    ghost inverse = { λ ns. record { list = ns ++ replicate (CAP - length ns) 0; count = length ns } };

    ghost inverse_ok = { λ n h i. record {
      list = refilled CAP n.count n.list h.0 h.1 h.2 i;
      count = length-take-le n.count n.list (omega (arith, h.0, h.1)) i;
    } };
}

impl<const CAP: usize> ShortList<CAP> {
    // None yet.
    pub fn new() -> Self
        ensures { result ≡ no_items }
    {
        ShortList {
            list: [0; CAP],
            count: 0,
        }
    }

    // Whether there is room for no number more.
    pub fn is_full(&self) -> bool
        ensures { result ≡ not (nat_lt (length self.now) CAP) }
    {
        self.count == CAP
    }

    // One number more. Past the room it is left out.
    pub fn push(&mut self, v: u32)
        ensures { self.new ≡ pushed CAP self.old v }
    {
        if self.count < CAP {
            self.list[self.count] = v;
            self.count += 1;
        }
    }

    // Those that are held.
    pub fn as_slice(&self) -> &[u32]
        ensures value { result.now ≡ self.now }
        ensures fits { length result.now ≤ CAP }
    {
        &self.list[..self.count]
    }
}
