//! The program that is the exchange of a telephone line: it says what changes on the line, and is told each hook call.
#![tactic(auto)]

mod dialogue;
mod exchange;
pub mod laws;
mod line;
mod running;

pub use exchange::Exchange;
