// A rate command for a group of lines in a row that its caller lends: taken by all of them or by none.
#![tactic(auto)]

mod asking;
mod marks;
mod rating;

pub use rating::rate;
