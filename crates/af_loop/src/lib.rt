//! A device that hears itself: what it emits it captures a fortieth of a second later.
#![tactic(auto)]

mod delay_line;
pub mod laws;

pub use delay_line::{DelayLine, delay_frames};
