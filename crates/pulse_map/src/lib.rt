// Pulse maps of H.248.26, 6.5.4: the elements, X's and pulses of a map.
#![tactic(auto)]

mod interleaving;
mod map;
mod pulses;
mod tables;

pub use map::{element_at, xs_in_prefix};
pub use pulses::pulses_in;

// An element of a map.
#[derive(Clone, Copy, PartialEq, Eq, Debug)]
pub enum Element {
    X,
    N,
}
