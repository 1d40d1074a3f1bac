//! Exercises: scripts that are made of the numbers of a generator, so that a seed and a number of turns stand for a large one.
#![tactic(auto)]

mod generate;

pub use generate::make_script;
