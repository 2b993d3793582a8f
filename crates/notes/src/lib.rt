// What is noted of a text where a piece ends: faults, and the values of each name.
#![tactic(auto)]

ghost use Rattle.std.specs.Prelude.{◌≡◌};
ghost use Rattle.notes.specs.Noting.{no_notes, has_in, marked_of, touch_of, stored_of, value_of, signal_of, keep_of, note_of};

mod names;
pub mod slots;
mod values;

use scanner::{Place, Token};
pub use values::Values;

// Whether a fault was met; the slots of the signal and of the name that is being read; the values of each slot.
#[derive(Clone, Copy)]
pub struct Notes {
    pub bad: bool,
    pub signal: usize,
    pub slot: usize,
    pub values: [Values; slots::COUNT],
}

impl Notes {
    // Those of no text yet.
    #[tactic(auto, using(crate::proofs::NoValues::each_none))]
    pub fn none() -> Notes
        ensures { result ≡ no_notes }
    {
        Notes {
            bad: false,
            signal: slots::UNKNOWN,
            slot: slots::UNKNOWN,
            values: Default::default(),
        }
    }

    // Whether a name was given.
    #[tactic(auto, unfolding(crate::specs::Noting::has_in))]
    pub fn has(&self, slot: usize) -> bool
        ensures { result ≡ has_in self.now.values slot }
    {
        self.values
            .get(slot)
            .is_some_and(|v| !v.as_slice().is_empty())
    }

    // Notes a fault, if there is one.
    fn mark(&mut self, fault: bool)
        ensures { self.new ≡ marked_of self.old fault }
    {
        self.bad |= fault;
    }

    // Notes a name: a fault where it is unknown, or was there before.
    fn touch(&mut self, slot: usize)
        ensures { self.new ≡ touch_of self.old slot }
    {
        self.mark(slot == slots::UNKNOWN || self.has(slot));
        self.slot = slot;
    }

    // Stores a value of the slot.
    fn store(&mut self, v: u32)
        ensures { self.new ≡ stored_of self.old v }
    {
        // Stays: a test of the place. `get_mut` was tried: std says what it finds, and not what the slice holds after
        // a write.
        if self.slot < slots::COUNT {
            self.values[self.slot].push(v);
        }
    }

    // Notes a number. One that is above the largest is a fault.
    fn value(&mut self, v: u64)
        ensures { self.new ≡ value_of self.old v }
    {
        match u32::try_from(v) {
            Ok(v) => self.store(v),
            Err(_) => self.mark(true),
        }
    }

    // Notes a signal's name.
    fn signal(&mut self, code: u64)
        ensures { self.new ≡ signal_of self.old code }
    {
        let slot = names::signal_slot(code);
        self.touch(slot);
        self.store(1);
        self.signal = slot;
    }

    // Notes KA.
    fn keep(&mut self)
        ensures { self.new ≡ keep_of self.old }
    {
        self.touch(names::keep_slot(self.signal));
        self.store(1);
    }

    // Notes what a piece says at its place.
    #[tactic(auto, unfolding(crate::specs::Noting::note_of))]
    pub fn note(&mut self, place: Place, token: Token)
        ensures { self.new ≡ note_of self.old place token }
    {
        match token {
            Token::Name(code) => {
                if place == Place::ToName {
                    self.signal(code);
                } else {
                    self.touch(names::item_slot(self.signal, code));
                }
            }
            Token::Number(v) => {
                if place == Place::ToValue {
                    self.mark(names::is_list(self.slot));
                }
                self.value(v);
            }
            Token::Ka => self.keep(),
            Token::From => self.mark(!names::is_list(self.slot)),
            _ => {}
        }
    }
}
