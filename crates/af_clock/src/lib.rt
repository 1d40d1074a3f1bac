//! How a device goes on by a clock: the frames that are due of it, reading by reading.
#![tactic(auto)]

mod pace;

pub use pace::Pace;
