//! The telephone lines of a world: each has no program and never rings, or one that stands for its exchange.
#![tactic(auto)]

mod held_line;
mod line_exchange;
mod lines;

pub use lines::Lines;
