//! A relay: blocks are recorded over one connection and played over another.
#![tactic(auto)]

mod pass;
mod passer;

pub use passer::apass;
